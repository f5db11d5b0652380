// Reading an ELF-64 file as an executable.
ghost use Rattle.std.specs.Prelude.{◌≡◌, ◌+◌, ◌*◌, ◌≤◌, ◌<◌, length, take, not, nat_lt, nat_le, filter, IfOk};
ghost use Rattle.std.specs.Prelude.{MatchResult, Ok, None, true};
ghost use Rattle.std.specs.List.{list_any, list_all};
ghost use Rattle.dt_elf.specs.Header.{e_phnum, table_end, program_headers, is_interp, load_segments};
ghost use Rattle.dt_elf.specs.Executable.{is_placed, share_byte, has_overlap, are_placed, refusal, has_table};
ghost use Rattle.dt_elf.specs.Executable.{table_address_or, table_address, exe, executable, IsElfErr};
ghost use Rattle.dt_elf.specs.Placed.{IsPlaced, ArePlaced, EndBelowMappings};
ghost use Rattle.dt_elf.specs.ProgramBreak.{program_break, segments_end};
ghost use Rattle.dt_elf.specs.inner.Refused.{is_short, is_bad_header, segments_refusal};

use crate::header::{double, exceeds, half, phnum, read_header, table_exceeds};
use crate::layout::{CLASS, EM_RISCV, ET_EXEC, FILE_HEADER_SIZE, HEADER_LIMIT, HEADER_SIZE, MAGIC};
use dt_base::{ADDRESS_LIMIT, MMAP_START, PAGE_SIZE};
use std::alloc::{AllocError, Global};
use thiserror::Error;

/// Why a file is no executable that can be started: the first reason that holds.
#[derive(Clone, Copy, Debug, PartialEq, Eq, Error)]
pub enum ElfErr {
    #[error("the headers run past the end of the file")]
    Short,
    #[error("the file does not begin as ELF")]
    Magic,
    #[error("other than 64 bits, little-endian, version 1")]
    Class,
    #[error("no executable at fixed addresses")]
    Kind,
    #[error("not for RISC-V")]
    Machine,
    #[error("a size, a number or the entry in the header is out of its range")]
    Header,
    #[error("no segment that takes memory, or one that lies badly")]
    Segment,
    #[error("two segments share a byte")]
    Overlap,
    #[error("the file asks for an interpreter")]
    Interp,
    #[error("out of memory")]
    NoMemory,
}

/// A segment of a file that is loaded: addresses and sizes in bytes, rights as pages have them.
#[derive(Clone, Copy, Debug, PartialEq, Eq)]
pub struct Segment {
    pub vaddr: u64,
    pub memsz: u64,
    pub offset: u64,
    pub filesz: u64,
    pub rights: u8,
}

/// An executable: the address where it starts, that of its program headers in memory (0 where no segment holds them
/// all), and its segments in the order of their headers.
#[derive(Debug, Drop)]
pub struct Elf {
    pub entry: u64,
    pub phdr: u64,
    pub segments: Vec<Segment>,
}

// What stands in a table where no segment does.
const NO_SEGMENT: Segment = Segment {
    vaddr: 0,
    memsz: 0,
    offset: 0,
    filesz: 0,
    rights: 0,
};

impl From<AllocError> for ElfErr {
    ghost use Rattle.std.specs.Prelude.{◌≡◌};
    ghost use Rattle.dt_elf.specs.declared.elf.ElfErr.TheVariants.{NoMemory as no_memory};

    ghost from_gives = { λ _ error. error ≡ no_memory };

    fn from(_: AllocError) -> Self {
        ElfErr::NoMemory
    }
}

/// Reads an executable (ELF-64 object file format), or gives the first reason why the file is none. Want of memory
/// comes only where there is no such reason.
pub fn read_elf(alloc: Global, bytes: &[u8]) -> Result<Elf, ElfErr>
    ensures exact { MatchResult result (λ elf. exe bytes.now ≡ Ok (executable elf)) (IsElfErr (exe bytes.now)) }
    ensures low { IfOk result (λ elf. EndBelowMappings elf.segments.items) }
{
    if let Some(refusal) = refusal(bytes) {
        return Err(refusal);
    }
    let mut table = [NO_SEGMENT; 64];
    let count = read_segments(bytes, &mut table);
    let found = &table[..count];
    let mut segments = Vec::new(alloc);
    segments.extend_from_slice(found)?;
    Ok(Elf {
        entry: double(bytes, 24),
        phdr: table_address(bytes, found),
        segments,
    })
}

// The first reason why a file is no executable.
fn refusal(bytes: &[u8]) -> Option<ElfErr>
    ensures { result ≡ refusal bytes.now }
{
    if is_short_file(bytes) {
        Some(ElfErr::Short)
    } else if !bytes.starts_with(&MAGIC) {
        Some(ElfErr::Magic)
    } else if !bytes[4..].starts_with(&CLASS) {
        Some(ElfErr::Class)
    } else if half(bytes, 16) != ET_EXEC {
        Some(ElfErr::Kind)
    } else if half(bytes, 18) != EM_RISCV {
        Some(ElfErr::Machine)
    } else if is_unusable(bytes) {
        Some(ElfErr::Header)
    } else {
        segments_refusal(bytes)
    }
}

// Whether the headers run past the end.
fn is_short_file(bytes: &[u8]) -> bool
    ensures { result ≡ is_short bytes.now }
{
    let size = bytes.len() as u64;
    size < FILE_HEADER_SIZE || table_exceeds(bytes, size)
}

// Whether the numbers of program headers or the entry rule the file out.
fn is_unusable(bytes: &[u8]) -> bool
    ensures { result ≡ is_bad_header bytes.now }
{
    let count = phnum(bytes);
    u64::from(half(bytes, 54)) != HEADER_SIZE
        || count == 0
        || HEADER_LIMIT < count
        || ADDRESS_LIMIT <= double(bytes, 24)
}

// The first reason that lies in the program headers.
fn segments_refusal(bytes: &[u8]) -> Option<ElfErr>
    requires table { table_end bytes.now ≤ length bytes.now }
    requires few { e_phnum bytes.now ≤ HEADER_LIMIT }
    ensures { result ≡ segments_refusal bytes.now }
{
    let mut table = [NO_SEGMENT; 64];
    let count = read_segments(bytes, &mut table);
    let found = &table[..count];
    if !are_placed(bytes, found) {
        Some(ElfErr::Segment)
    } else if has_overlap(found) {
        Some(ElfErr::Overlap)
    } else if has_interpreter(bytes) {
        Some(ElfErr::Interp)
    } else {
        None
    }
}

// Puts the segments that take memory first into the table, and says how many there are.
fn read_segments(bytes: &[u8], table: &mut [Segment; 64]) -> usize
    requires table { table_end bytes.now ≤ length bytes.now }
    requires few { e_phnum bytes.now ≤ HEADER_LIMIT }
    ensures within { result ≤ HEADER_LIMIT }
    ensures segments { take result table.new ≡ load_segments bytes.now }
{
    let mut count = 0;
    for index in 0..phnum(bytes) {
        let header = read_header(bytes, index);
        if header.is_load() {
            table[count] = header.segment();
            count += 1;
        }
    }
    count
}

// Whether there is a segment, and each is placed well.
#[tactic(auto, unfolding(crate::specs::Executable::are_placed))]
fn are_placed(bytes: &[u8], segments: &[Segment]) -> bool
    ensures { result ≡ are_placed bytes.now segments.now }
{
    !segments.is_empty() && each_is_placed(bytes, segments)
}

// Whether each of the segments is placed well.
fn each_is_placed(bytes: &[u8], segments: &[Segment]) -> bool
    ensures { result ≡ list_all (is_placed bytes.now) segments.now }
{
    segments.iter().all(|segment| segment.is_placed(bytes))
}

// Whether some two of the segments share a byte.
fn has_overlap(segments: &[Segment]) -> bool
    ensures { result ≡ has_overlap segments.now }
{
    let mut index = segments.len();
    let mut found = false;
    while 0 < index {
        let (_, rest) = segments.split_at(index);
        index -= 1;
        found = segments[index].shares_any(rest) || found;
    }
    found
}

// The address of the program headers: in the first segment that holds them all, else 0.
fn table_address(bytes: &[u8], segments: &[Segment]) -> u64
    requires table { table_end bytes.now ≤ length bytes.now }
    requires placed { ArePlaced bytes.now segments.now }
    ensures { result ≡ table_address bytes.now segments.now }
{
    let mut index = segments.len();
    let mut address = 0;
    while 0 < index {
        index -= 1;
        address = segments[index].table_address_or(bytes, address);
    }
    address
}

// Whether a program header asks for a program interpreter.
fn has_interpreter(bytes: &[u8]) -> bool
    requires { table_end bytes.now ≤ length bytes.now }
    ensures { result ≡ list_any is_interp (program_headers bytes.now) }
{
    for index in 0..phnum(bytes) {
        let header = read_header(bytes, index);
        if header.is_interpreter() {
            return true;
        }
    }
    false
}

impl Elf {
    /// Where the break starts: the end of the highest segment, rounded up to a page.
    pub fn program_break(&self) -> u64
        requires { EndBelowMappings self.now.segments.items }
        ensures exact { result ≡ program_break (executable self.now) }
        ensures low { result ≤ MMAP_START }
    {
        segments_end(&self.segments).div_ceil(PAGE_SIZE) * PAGE_SIZE
    }
}

// The greatest of the addresses that follow segments.
fn segments_end(segments: &[Segment]) -> u64
    requires { EndBelowMappings segments.now }
    ensures exact { result ≡ segments_end segments.now }
    ensures low { result ≤ MMAP_START }
{
    let mut index = segments.len();
    let mut end = 0;
    while 0 < index {
        index -= 1;
        end = end.max(segments[index].vaddr + segments[index].memsz);
    }
    end
}

impl Segment {
    // Whether the file part lies in the file and in the memory part, and this in a program's range.
    fn is_placed(&self, bytes: &[u8]) -> bool
        ensures { result ≡ is_placed bytes.now self.now }
    {
        self.filesz <= self.memsz
            && !exceeds(bytes.len() as u64, self.offset, self.filesz)
            && PAGE_SIZE <= self.vaddr
            && !exceeds(MMAP_START, self.vaddr, self.memsz)
    }

    // Whether it shares a byte with some of the others.
    fn shares_any(&self, others: &[Segment]) -> bool
        ensures { result ≡ list_any (share_byte self.now) others.now }
    {
        others.iter().any(|other| self.shares(other))
    }

    // Whether some byte of memory is in both.
    fn shares(&self, other: &Segment) -> bool
        ensures { result ≡ share_byte self.now other.now }
    {
        exceeds(self.vaddr, other.vaddr, other.memsz)
            && exceeds(other.vaddr, self.vaddr, self.memsz)
    }

    // The address of the program headers where its file part holds them all, else another.
    fn table_address_or(&self, bytes: &[u8], other: u64) -> u64
        requires table { table_end bytes.now ≤ length bytes.now }
        requires placed { IsPlaced bytes.now self.now }
        ensures { result ≡ table_address_or bytes.now self.now other }
    {
        if self.has_table_of(bytes) {
            self.vaddr + (double(bytes, 32) - self.offset)
        } else {
            other
        }
    }

    // Whether its file part holds all program headers.
    fn has_table_of(&self, bytes: &[u8]) -> bool
        requires table { table_end bytes.now ≤ length bytes.now }
        requires placed { IsPlaced bytes.now self.now }
        ensures { result ≡ has_table bytes.now self.now }
    {
        self.offset <= double(bytes, 32) && !table_exceeds(bytes, self.offset + self.filesz)
    }
}
