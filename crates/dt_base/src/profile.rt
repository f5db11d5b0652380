// The versions of an image, and what each gives to guests.
ghost use Rattle.std.specs.Prelude.{◌≡◌, ◌≤◌};
ghost use Rattle.dt_base.specs.Profile.{is_version, file_limit, has_atomics, has_devices};

use crate::limits::{FILE_LIMIT, FIRST_FILE_LIMIT};

/// The version of an image whose guests have neither atomics nor devices.
pub const FIRST_VERSION: u64 = 1;

/// The version of an image whose guests have both, and longer files.
pub const SECOND_VERSION: u64 = 2;

/// Whether there are images of this version.
pub fn is_version(version: u64) -> bool
    ensures { result ≡ is_version version }
{
    version == FIRST_VERSION || version == SECOND_VERSION
}

/// Bytes of a file, at most.
pub fn file_limit(version: u64) -> u64
    ensures value { result ≡ file_limit version }
    ensures most { result ≤ FILE_LIMIT }
{
    if version == SECOND_VERSION {
        FILE_LIMIT
    } else {
        FIRST_FILE_LIMIT
    }
}

/// Whether guests run the atomic instructions.
pub fn has_atomics(version: u64) -> bool
    ensures { result ≡ has_atomics version }
{
    version == SECOND_VERSION
}

/// Whether there are devices.
pub fn has_devices(version: u64) -> bool
    ensures { result ≡ has_devices version }
{
    version == SECOND_VERSION
}
