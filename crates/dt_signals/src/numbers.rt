//! The layout of a handler's frame, and the signal of a timer.

/// Bytes of a handler's frame (this project's layout, as the offsets below).
pub const FRAME_SIZE: usize = 400;

/// The frame stands at a multiple of this (RISC-V ELF psABI, "Integer Calling Convention").
pub const FRAME_ALIGN: u64 = 16;

/// Bytes of the signal's number, at the frame's start (`si_signo`, sigaction(2)).
pub const SIGNO_SIZE: usize = 4;

/// Where the program counter stands in the frame.
pub const FRAME_PC: usize = 128;

/// Where the registers x1 to x31 begin.
pub const FRAME_REGISTERS: usize = 136;

/// Where the mask stands.
pub const FRAME_MASK: usize = 384;

/// The timer that counts real time is due (signal(7)).
pub const SIGALRM: u8 = 14;
