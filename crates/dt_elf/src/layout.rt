//! Numbers of the ELF-64 file format, and of the memory that a program starts with.
use dt_base::{MMAP_START, PAGE_SIZE};

/// The first bytes of a file (ELF-64 object file format, "File header", as all numbers of the file header here).
pub const MAGIC: [u8; 4] = [0x7f, 0x45, 0x4c, 0x46];

/// The bytes after them: 64 bits, little-endian, version 1.
pub const CLASS: [u8; 3] = [2, 1, 1];

/// An executable that is loaded at fixed addresses.
pub const ET_EXEC: u16 = 2;

/// The RISC-V architecture (RISC-V ELF psABI, "File Header").
pub const EM_RISCV: u16 = 243;

/// Bytes of the file header.
pub const FILE_HEADER_SIZE: u64 = 64;

/// Bytes of a program header (ELF-64 object file format, "Program header table", as all numbers of program headers
/// here).
pub const HEADER_SIZE: u64 = 56;

/// Program headers of a file, at most.
pub const HEADER_LIMIT: u16 = 64;

/// A segment that is loaded.
pub const PT_LOAD: u32 = 1;

/// A request for a program interpreter.
pub const PT_INTERP: u32 = 3;

/// The flag of a segment that may be executed.
pub const PF_X: u32 = 1;

/// The flag of a segment that may be written.
pub const PF_W: u32 = 2;

/// The flag of a segment that may be read.
pub const PF_R: u32 = 4;

/// The number of the first page past those that segments may touch.
pub const SEGMENT_PAGES_END: u64 = MMAP_START / PAGE_SIZE;

/// The first address of the stack.
pub const STACK_START: u64 = 0x3f_ffef_e000;

/// The stack's size: 1 MiB, in pages.
pub const STACK_PAGES: u64 = 256;

/// The first address past the stack.
pub const STACK_TOP: u64 = 0x3f_ffff_e000;

/// The stack pointer is a multiple of this (RISC-V ELF psABI, "Integer Calling Convention").
pub const STACK_ALIGN: u64 = 16;

/// The address of the trampoline, the page to which handlers of signals return.
pub const TRAMPOLINE: u64 = 0x3f_ffff_f000;

/// Its first bytes: `li a7, 139` and `ecall`, the words 0x08b00893 and 0x00000073 (rt_sigreturn(2)).
pub const TRAMPOLINE_CODE: [u8; 8] = [0x93, 0x08, 0xb0, 0x08, 0x73, 0, 0, 0];

/// Random bytes that a program is given.
pub const RANDOM_SIZE: u64 = 16;

/// The end of the auxiliary vector (getauxval(3) and linux/auxvec.h, as all its types here).
pub const AT_NULL: u64 = 0;

/// The address of the program headers.
pub const AT_PHDR: u64 = 3;

/// The size of a program header.
pub const AT_PHENT: u64 = 4;

/// The number of program headers.
pub const AT_PHNUM: u64 = 5;

/// The size of a page.
pub const AT_PAGESZ: u64 = 6;

/// The address of the program's first instruction.
pub const AT_ENTRY: u64 = 9;

/// The user.
pub const AT_UID: u64 = 11;

/// The effective user.
pub const AT_EUID: u64 = 12;

/// The group.
pub const AT_GID: u64 = 13;

/// The effective group.
pub const AT_EGID: u64 = 14;

/// The clock ticks of a second, as times(2) counts them.
pub const AT_CLKTCK: u64 = 17;

/// Whether the program is to be careful of its environment.
pub const AT_SECURE: u64 = 23;

/// The address of the random bytes.
pub const AT_RANDOM: u64 = 25;

/// The address of the path that the program was executed by.
pub const AT_EXECFN: u64 = 31;

/// The user and the group of every program: root.
pub const ROOT_ID: u64 = 0;

/// Clock ticks of a second (Linux's USER_HZ).
pub const CLOCK_TICKS: u64 = 100;
