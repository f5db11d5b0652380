// Files made by hand, commands, and the machines that start them.
ghost use Rattle.std.specs.Prelude.{◌≡◌, ◌≤◌, IfOk, length};
ghost use Rattle.std.specs.List.{list_all};
ghost use Rattle.dt_base.specs.Path.{has_no_nul};
ghost use Rattle.dt_rv64.specs.Valid.{IsMachine};

use dt_base::{Blob, Command, NoMemory, PATH_LIMIT, has_no_nul};
use dt_elf::{read_elf, start};
use dt_rv64::Machine;
use std::alloc::Global;
use std::test::Fail;

/// Bytes behind the program headers of a file.
pub const BODY_SIZE: u64 = 8192;

/// The random bytes of all machines here.
pub const RANDOM: [u8; 16] = [9, 8, 7, 6, 5, 4, 3, 2, 1, 10, 11, 12, 13, 14, 15, 16];

// A program header.
#[derive(Clone, Copy)]
pub struct Header {
    pub kind: u32,
    pub flags: u32,
    pub offset: u64,
    pub vaddr: u64,
    pub filesz: u64,
    pub memsz: u64,
}

/// A segment that is loaded.
pub fn load(flags: u32, offset: u64, vaddr: u64, filesz: u64, memsz: u64) -> Header {
    Header {
        kind: 1,
        flags,
        offset,
        vaddr,
        filesz,
        memsz,
    }
}

/// The offset of the body of a file with so many program headers.
pub fn body(headers: u64) -> u64 {
    headers.saturating_mul(56).saturating_add(64)
}

/// A file with these program headers behind its header and a body behind them: bytes 1, 2, .., 251, 1, and so on.
pub fn file(alloc: Global, headers: &[Header]) -> Result<Vec<u8>, NoMemory> {
    let mut file = headers_alone(alloc, headers)?;
    for index in 0..BODY_SIZE {
        file.push((index % 251) as u8 + 1)?;
    }
    Ok(file)
}

/// The same without its body.
pub fn headers_alone(alloc: Global, headers: &[Header]) -> Result<Vec<u8>, NoMemory> {
    let mut file = Vec::new(alloc);
    file.extend_from_slice(&[0x7f, 0x45, 0x4c, 0x46, 2, 1, 1, 0, 0, 0, 0, 0, 0, 0, 0, 0])?;
    file.extend_from_slice(&[2, 0, 0xf3, 0, 1, 0, 0, 0])?;
    put_numbers(&mut file, &[0x1_0078, 64, 0])?;
    file.extend_from_slice(&[0, 0, 0, 0, 64, 0, 56, 0])?;
    file.push((headers.len() % 256) as u8)?;
    file.extend_from_slice(&[0; 7])?;
    for header in headers {
        push_header(&mut file, *header)?;
    }
    Ok(file)
}

fn push_header(file: &mut Vec<u8>, header: Header) -> Result<(), NoMemory> {
    file.extend_from_slice(&header.kind.to_le_bytes())?;
    file.extend_from_slice(&header.flags.to_le_bytes())?;
    put_numbers(
        file,
        &[
            header.offset,
            header.vaddr,
            header.vaddr,
            header.filesz,
            header.memsz,
            4096,
        ],
    )
}

fn put_numbers(file: &mut Vec<u8>, numbers: &[u64]) -> Result<(), NoMemory> {
    for number in numbers {
        file.extend_from_slice(&number.to_le_bytes())?;
    }
    Ok(())
}

/// A copy of a file with bytes put at an offset.
pub fn patched(
    alloc: Global,
    file: &[u8],
    offset: usize,
    bytes: &[u8],
) -> Result<Vec<u8>, NoMemory> {
    let mut copy = Vec::new(alloc);
    copy.extend_from_slice(file)?;
    for (index, byte) in bytes.iter().enumerate() {
        if let Some(there) = copy.get_mut(offset.saturating_add(index)) {
            *there = *byte;
        }
    }
    Ok(copy)
}

/// The command of these words, none of which holds a NUL.
pub fn command(alloc: Global, args: &[&[u8]], env: &[&[u8]]) -> Result<Command, Fail> {
    let args = blobs(alloc, args)?;
    let env = blobs(alloc, env)?;
    if args.is_empty() || !each_has_no_nul(&args) || !each_has_no_nul(&env) {
        return Err(NoMemory.into());
    }
    Ok(Command::new(args, env))
}

fn each_has_no_nul(words: &[Blob]) -> bool
    ensures { result ≡ list_all has_no_nul words.now }
{
    words.iter().all(|word| has_no_nul(word.as_slice()))
}

fn blobs(alloc: Global, words: &[&[u8]]) -> Result<Vec<Blob>, NoMemory> {
    let mut blobs = Vec::new(alloc);
    for word in words {
        let mut bytes = Vec::new(alloc);
        bytes.extend_from_slice(word)?;
        blobs.push(Blob::new(bytes))?;
    }
    Ok(blobs)
}

/// The machine that starts a file.
pub fn start_file(
    alloc: Global,
    file: &[u8],
    command: &Command,
    execfn: &[u8],
) -> Result<Machine, Fail>
    requires { length execfn.now ≤ PATH_LIMIT }
    ensures { IfOk result IsMachine }
{
    let elf = read_elf(alloc, file)?;
    Ok(start(alloc, &elf, file, command, execfn, &RANDOM, false)?)
}

/// The machine that starts `hello` under its own path.
pub fn start_hello(alloc: Global) -> Result<Machine, Fail>
    ensures { IfOk result IsMachine }
{
    let file = dt_asm::hello(alloc)?.elf()?;
    let command = command(alloc, &[b"/hello"], &[])?;
    start_file(alloc, &file, &command, b"/hello")
}
