// The headers of a guest's file.
ghost use Rattle.std.specs.Prelude.{◌≡◌, ◌++◌, ◌<◌, ◌^◌, IfOk, IfSome, OnOk, flat_map};
ghost use Rattle.dt_base.specs.Fields.{low_bytes};
ghost use Rattle.dt_asm.specs.Header.{file_header, program_header_bytes};
ghost use Rattle.dt_asm.specs.File.{segment_header};

use dt_base::NoMemory;
use std::alloc::Global;

/// Bytes of the file header and of one program header.
pub const HEADERS_SIZE: u64 = 120;

// Where the file's first byte lies in memory.
const BASE: u64 = 0x10000;

// PT_LOAD, and the flags of a segment: to read 4, to write 2, to execute 1.
const PT_LOAD: u32 = 1;

const READ_EXECUTE: u32 = 5;

const READ_WRITE_EXECUTE: u32 = 7;

const ALIGNMENT: u64 = 4096;

// The file header (ELF-64, "ELF Header"): an executable for RISC-V with one program header behind it.
const FILE_HEADER: [u8; 64] = [
    // e_ident
    0x7f, 0x45, 0x4c, 0x46, 2, 1, 1, 0, 0, 0, 0, 0, 0, 0, 0, 0, //
    // e_type, e_machine, e_version
    2, 0, 0xf3, 0, 1, 0, 0, 0, //
    // e_entry, e_phoff, e_shoff
    0x78, 0, 1, 0, 0, 0, 0, 0, 64, 0, 0, 0, 0, 0, 0, 0, 0, 0, 0, 0, 0, 0, 0, 0, //
    // e_flags, e_ehsize, e_phentsize, e_phnum, e_shentsize, e_shnum, e_shstrndx
    0, 0, 0, 0, 64, 0, 56, 0, 1, 0, 0, 0, 0, 0, 0, 0,
];

/// The file header and the one program header (ELF-64, "ELF Header" and "Program Header") of a file of this many bytes,
/// headers included, all of which is loaded. Where a size of memory is given, in bytes, the memory is writable, and as
/// long as that or as the file, whichever is more.
pub fn headers(alloc: Global, size: u64, memory: Option<u32>) -> Result<Vec<u8>, NoMemory>
    ensures bytes { IfOk result (λ bytes. bytes.items ≡ file_header ++ segment_header memory size) }
    ensures few { IfSome memory (λ memory. memory < 2 ^ 32) }
{
    let mut bytes = Vec::from_slice(alloc, &FILE_HEADER)?;
    match memory {
        None => add_program_header(&mut bytes, READ_EXECUTE, size, size)?,
        Some(memory) => {
            let memory = size.max(u64::from(memory));
            add_program_header(&mut bytes, READ_WRITE_EXECUTE, size, memory)?;
        }
    }
    Ok(bytes)
}

// Adds the program header (ELF-64, "Program Header") of a segment of a file's first bytes.
fn add_program_header(
    bytes: &mut Vec<u8>,
    flags: u32,
    filesz: u64,
    memsz: u64,
) -> Result<(), NoMemory>
    ensures { OnOk result (bytes.new.items ≡ bytes.old.items ++ program_header_bytes flags filesz memsz) }
{
    add_word(bytes, PT_LOAD)?;
    add_word(bytes, flags)?;
    add_numbers(bytes, &[0, BASE, BASE, filesz, memsz, ALIGNMENT])
}

// Adds numbers of 64 bits.
fn add_numbers(bytes: &mut Vec<u8>, numbers: &[u64]) -> Result<(), NoMemory>
    ensures { OnOk result (bytes.new.items ≡ bytes.old.items ++ flat_map (low_bytes 8) numbers.now) }
{
    for number in numbers {
        bytes.extend_from_slice(&number.to_le_bytes())?;
    }
    Ok(())
}

// Adds a number of 32 bits.
fn add_word(bytes: &mut Vec<u8>, number: u32) -> Result<(), NoMemory>
    ensures { OnOk result (bytes.new.items ≡ bytes.old.items ++ low_bytes 4 number) }
{
    Ok(bytes.extend_from_slice(&number.to_le_bytes())?)
}
