// The numbers of an ELF-64 file: its header's fields, and its program headers.
ghost use Rattle.std.specs.Prelude.{◌≡◌, ◌+◌, ◌*◌, ◌≤◌, ◌<◌, length, nat_lt};
ghost use Rattle.dt_elf.specs.Header.{number, e_phoff, e_phnum, table_end, program_header, is_load, is_interp};
ghost use Rattle.dt_elf.specs.Header.{rights_of, segment_from_header};

use crate::elf::Segment;
use crate::layout::{HEADER_SIZE, PF_R, PF_W, PF_X, PT_INTERP, PT_LOAD};
use dt_base::{get16, get32, get64};
use dt_space::{EXECUTE, READ, WRITE};

/// The fields of a program header that count here.
#[derive(Clone, Copy)]
pub struct ProgramHeader {
    kind: u32,
    flags: u32,
    offset: u64,
    vaddr: u64,
    filesz: u64,
    memsz: u64,
}

/// A program header by its index.
pub(crate) fn read_header(bytes: &[u8], index: u16) -> ProgramHeader
    requires table { table_end bytes.now ≤ length bytes.now }
    requires within { index < e_phnum bytes.now }
    ensures { result ≡ program_header bytes.now (e_phoff bytes.now + HEADER_SIZE * index) }
{
    let at = (double(bytes, 32) + HEADER_SIZE * u64::from(index)) as usize;
    ProgramHeader {
        kind: word(bytes, at),
        flags: word(bytes, at + 4),
        offset: double(bytes, at + 8),
        vaddr: double(bytes, at + 16),
        filesz: double(bytes, at + 32),
        memsz: double(bytes, at + 40),
    }
}

impl ProgramHeader {
    /// Whether it loads memory.
    pub(crate) fn is_load(&self) -> bool
        ensures { result ≡ is_load self.now }
    {
        self.kind == PT_LOAD && 0 < self.memsz
    }

    /// Whether it asks for a program interpreter.
    pub(crate) fn is_interpreter(&self) -> bool
        ensures { result ≡ is_interp self.now }
    {
        self.kind == PT_INTERP
    }

    pub(crate) fn segment(&self) -> Segment
        ensures { result ≡ segment_from_header self.now }
    {
        Segment {
            vaddr: self.vaddr,
            memsz: self.memsz,
            offset: self.offset,
            filesz: self.filesz,
            rights: rights(self.flags),
        }
    }
}

// The rights that a segment's flags give; the right to write brings the right to read.
fn rights(flags: u32) -> u8
    ensures { result ≡ rights_of flags }
{
    let to_data = if flags & PF_W == PF_W {
        READ + WRITE
    } else if flags & PF_R == PF_R {
        READ
    } else {
        0
    };
    let to_code = if flags & PF_X == PF_X { EXECUTE } else { 0 };
    to_data + to_code
}

/// Whether the program headers end past so many bytes of the file.
pub(crate) fn table_exceeds(bytes: &[u8], size: u64) -> bool
    ensures { result ≡ nat_lt size (table_end bytes.now) }
{
    exceeds(
        size,
        double(bytes, 32),
        HEADER_SIZE * u64::from(phnum(bytes)),
    )
}

/// Whether a range ends past a limit.
pub(crate) fn exceeds(limit: u64, start: u64, size: u64) -> bool
    ensures { result ≡ nat_lt limit (start + size) }
{
    limit < start || limit - start < size
}

/// How many program headers there are.
pub(crate) fn phnum(bytes: &[u8]) -> u16
    ensures { result ≡ e_phnum bytes.now }
{
    half(bytes, 56)
}

/// The 16-bit number at an offset; 0 past the end.
pub(crate) fn half(bytes: &[u8], at: usize) -> u16
    ensures { result ≡ number 2 bytes.now at }
{
    get16(bytes, at).unwrap_or(0)
}

/// The 32-bit number at an offset; 0 past the end.
pub(crate) fn word(bytes: &[u8], at: usize) -> u32
    ensures { result ≡ number 4 bytes.now at }
{
    get32(bytes, at).unwrap_or(0)
}

/// The 64-bit number at an offset; 0 past the end.
pub(crate) fn double(bytes: &[u8], at: usize) -> u64
    ensures { result ≡ number 8 bytes.now at }
{
    get64(bytes, at).unwrap_or(0)
}
