// Wall time, as the calls tell it.

/// The second at which logical time begins: 2000-01-01 00:00:00 UTC, in seconds since 1970.
pub const FIRST_SECOND: u64 = 946_684_800;

/// Nanoseconds of a second.
pub const SECOND_TICKS: u64 = 1_000_000_000;

/// Nanoseconds of a microsecond.
pub const MICROSECOND_TICKS: u64 = 1_000;

/// The offset of a time's nanoseconds, behind its seconds (timespec(3type)).
pub const NANOSECONDS: usize = 8;
