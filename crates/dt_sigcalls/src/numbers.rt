//! The layout of `struct sigaction`.

/// Bytes of `struct sigaction` (asm-generic/signal.h, without a restorer).
pub const SIGACTION_SIZE: usize = 24;

/// Where the handler stands in it.
pub const SA_HANDLER: usize = 0;

/// Where the flags stand in it.
pub const SA_FLAGS: usize = 8;

/// Where the mask stands in it.
pub const SA_MASK: usize = 16;
