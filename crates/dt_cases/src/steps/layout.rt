// Where what belongs to a guest stands in its memory.

/// The size of a guest's memory, from 0x1_0000 on, whose pages are read, written and run.
pub const MEMORY_SIZE: u32 = 0x5_2000;

/// Where a guest keeps answers.
pub const ANSWERS: i64 = 0x1_8000;

/// A page for what a guest hands to calls, and parts of it for paths, for lists of arguments and of ranges, for what
/// calls write, and for the two descriptors of a pipe.
pub const DATA: i64 = 0x1_a000;

pub const PATH: i64 = 0x1_a080;

pub const ARGUMENTS: i64 = 0x1_a100;

pub const ENVIRONMENT: i64 = 0x1_a180;

pub const LIST: i64 = 0x1_a200;

pub const STATUS: i64 = 0x1_a300;

pub const ENDS: i64 = 0x1_a400;

/// The action of a signal and the mask that a guest hands to calls, and those that calls write.
pub const ACTION: i64 = 0x1_a500;

pub const OLD_ACTION: i64 = 0x1_a520;

pub const MASK: i64 = 0x1_a540;

pub const OLD_MASK: i64 = 0x1_a548;

/// The page behind that one, to which calls write.
pub const BUFFER: i64 = 0x1_b000;

/// Where a handler keeps answers.
pub const NOTES: i64 = 0x1_c000;

/// What is written to pipes: 200,704 bytes.
pub const SENT: i64 = 0x2_0000;

/// What is read from pipes.
pub const GOT: i64 = 0x5_1000;

/// The first address behind a guest's memory.
pub const END: i64 = 0x6_2000;

/// The bytes from `GOT` up to the end, which are more than a pipe holds.
pub const ROOM: i64 = END - GOT;

/// The first address behind the stack.
pub const STACK_END: i64 = 0x3f_ffff_e000;

/// The page of the trampoline, which is read and run.
pub const TRAMPOLINE: i64 = 0x3f_ffff_f000;

/// All of them by their names.
pub const ADDRESSES: &[(&str, i64)] = &[
    ("ANSWERS", ANSWERS),
    ("DATA", DATA),
    ("PATH", PATH),
    ("ARGUMENTS", ARGUMENTS),
    ("ENVIRONMENT", ENVIRONMENT),
    ("LIST", LIST),
    ("STATUS", STATUS),
    ("ENDS", ENDS),
    ("ACTION", ACTION),
    ("OLD_ACTION", OLD_ACTION),
    ("MASK", MASK),
    ("OLD_MASK", OLD_MASK),
    ("BUFFER", BUFFER),
    ("NOTES", NOTES),
    ("SENT", SENT),
    ("GOT", GOT),
    ("END", END),
    ("ROOM", ROOM),
    ("STACK_END", STACK_END),
    ("TRAMPOLINE", TRAMPOLINE),
];
