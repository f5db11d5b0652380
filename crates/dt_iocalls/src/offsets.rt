// Where a description goes on, and whether it may be read or written.
ghost use Rattle.std.specs.Prelude.{◌≡◌};
ghost use Rattle.dt_iocalls.specs.Offsets.{is_readable, is_writable, offset_of};

use dt_base::abi::{O_RDONLY, O_WRONLY};
use dt_fds::{Desc, Spot};

// Whether the description may be read.
pub(crate) fn is_readable(desc: &Desc) -> bool
    ensures { result ≡ is_readable desc.now }
{
    u32::from(desc.access) != O_WRONLY
}

// Whether the description may be written.
pub(crate) fn is_writable(desc: &Desc) -> bool
    ensures { result ≡ is_writable desc.now }
{
    u32::from(desc.access) != O_RDONLY
}

// The offset at which a file is read or written next; a directory has none, which is told as 0.
pub(crate) fn offset_of(spot: &Spot) -> u64
    ensures { result ≡ offset_of spot.now }
{
    match spot {
        Spot::At(offset) => *offset,
        Spot::After(_) => 0,
    }
}
