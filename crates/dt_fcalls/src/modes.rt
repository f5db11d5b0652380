//! Which bits of a mode a call takes.

/// The nine permission bits (umask(2)).
pub const PERMISSIONS: u32 = 0o777;
