//! Numbers and layouts of the calls on timers and of ppoll(2).

/// getitimer(2) (asm-generic/unistd.h).
pub const GETITIMER: u64 = 102;

/// setitimer(2) (asm-generic/unistd.h).
pub const SETITIMER: u64 = 103;

/// The timer that counts real time (setitimer(2)).
pub const ITIMER_REAL: u64 = 0;

/// The timer that counts the time in which the process runs in user mode (setitimer(2)).
pub const ITIMER_VIRTUAL: u64 = 1;

/// The timer that counts the time in which the process runs (setitimer(2)).
pub const ITIMER_PROF: u64 = 2;

/// Bytes of `struct itimerval` (setitimer(2)).
pub const ITIMERVAL_SIZE: usize = 32;

/// Where the interval stands in it.
pub const IT_INTERVAL: usize = 0;

/// Where the time until the timer is due stands in it.
pub const IT_VALUE: usize = 16;

/// Where the microseconds stand in `struct timeval`, behind the seconds (timeval(3type)).
pub const MICROSECONDS: usize = 8;

/// Microseconds of a second.
pub const SECOND_MICROSECONDS: u64 = 1_000_000;

/// ppoll(2) (asm-generic/unistd.h).
pub const PPOLL: u64 = 73;

/// How many entries a call of ppoll(2) may have (getrlimit(2), RLIMIT_NOFILE).
pub const POLLFD_LIMIT: usize = 64;

/// Bytes of `struct pollfd`: 4 of the descriptor, 2 of the events that are asked for, 2 of those that are found (poll(2)).
pub const POLLFD_SIZE: usize = 8;

/// Where the events that are asked for stand in it.
pub const POLLFD_EVENTS: usize = 4;

/// Where the events that are found stand in it.
pub const POLLFD_REVENTS: usize = 6;
