//! The statuses of runs that were completed.

/// The run has ended, and its first process with code 0.
pub const ENDED_ZERO: u8 = 0;

/// The run has ended, and its first process with another code or by a signal.
pub const ENDED_OTHERWISE: u8 = 1;

/// The run is over, and its first process has not ended.
pub const NOT_ENDED: u8 = 10;
