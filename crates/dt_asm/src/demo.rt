// The demonstration: a program that has children, a pipe and files, with a number that decides what they write.
ghost use Rattle.std.specs.Prelude.{◌≡◌, ◌++◌, IfOk, OnOk};
ghost use Rattle.std.specs.List.{flat_map};
ghost use Rattle.dt_base.specs.Fields.{low_bytes};
ghost use Rattle.dt_asm.specs.Demo.{demo_file, demo_image, demo_command};

use crate::headers::{HEADERS_SIZE, headers};
use dt_base::{Blob, Command, Entry, FIRST_VERSION, Image, NoMemory, What};
use std::alloc::Global;

// The words of the instructions. The number stands behind them, in 8 bytes.
const CODE: [u32; 108] = [
    // s0 is the number, s1 the number of children; sp makes room for a path and for 4,096 bytes
    0x00010437, 0x22843403, 0x00f00293, 0x025474b3, 0x00248493, 0x000012b7, 0x40510133, 0xff010113, //
    // pipe2: its descriptors go to s3 and s4; s2 counts the children
    0x00010513, 0x00000593, 0x03b00893, 0x00000073, 0x00012983, 0x00412a03, 0x00000913, //
    // clone, once for each child
    0x02990063, 0x00190913, 0x01100513, 0x00000593, 0x0dc00893, 0x00000073, 0x06050863, 0xfe5ff06f, //
    // close of the end to write to
    0x000a0513, 0x03900893, 0x00000073, //
    // read and write of what children tell, until there is nothing
    0x00098513, 0x01010593, 0x00001637, 0x03f00893, 0x00000073, 0x00050c63, 0x00050613, 0x00100513,
    0x04000893, 0x00000073, 0xfd9ff06f, //
    // wait4, once for each child
    0x02048263, 0xfff48493, 0xfff00513, 0x00000593, 0x00000613, 0x00000693, 0x10400893, 0x00000073,
    0xfe1ff06f, //
    // exit with code 0
    0x00000513, 0x05d00893, 0x00000073, //
    // the child: s5 is its number, t1 how many steps there are
    0x01240ab3, 0x3e800293, 0x02590333, 0x025473b3, 0x00730333, //
    // t3 is 6364136223846793005
    0x05852e37, 0xf43e0e1b, 0x00ce1e13, 0xd4de0e13, 0x00ce1e13, 0x958e0e13, 0x00ce1e13, 0xf2de0e13, //
    // t4 is 1442695040888963407
    0x01405eb7, 0x7b8e8e9b, 0x00ce9e93, 0xef7e8e93, 0x00ce9e93, 0x678e8e93, 0x00ce9e93, 0x14fe8e93, //
    // the steps
    0x03ca8ab3, 0x01da8ab3, 0xfff30313, 0xfe031ae3, //
    // the path
    0x602f62b7, 0x42f2829b, 0x01891313, 0x006282b3, 0x00513023, //
    // openat: the descriptor goes to s6
    0xf9c00513, 0x00010593, 0x04100613, 0x1a400693, 0x03800893, 0x00000073, 0x00050b13, //
    // the number, 512 times
    0x01010293, 0x00001337, 0x00628333, 0x0152b023, 0x00828293, 0xfe629ce3, //
    // write of all of it to the file
    0x000b0513, 0x01010593, 0x00001637, 0x04000893, 0x00000073, //
    // close of the file
    0x000b0513, 0x03900893, 0x00000073, //
    // write of the number to the pipe
    0x000a0513, 0x01010593, 0x00800613, 0x04000893, 0x00000073, //
    // exit with the number of the child
    0x00090513, 0x05d00893, 0x00000073, //
];

const SIZE: u64 = HEADERS_SIZE + 432 + 8;

// rwxr-xr-x
const MODE: u32 = 0o755;

/// The demonstration of a number `n`: an image with a directory `/d` and a program `/work`, and the command `/work`.
///
/// The program makes a pipe and `m` children, where `m` is 2 + n mod 15. It writes to standard output what comes through
/// the pipe, waits for all children, and ends with code 0. Child `i`, from 1 to `m`, starts with `n + i`, and multiplies
/// it by 6364136223846793005 and adds 1442695040888963407, modulo 2^64, 1,000 i + n mod 1,000 times. It makes a file in
/// `/d` whose name is the i-th letter from `a`, writes the number's 8 bytes to it, 512 times in one write, and once to the
/// pipe, and ends with code `i`.
pub fn demo_image(alloc: Global, n: u64) -> Result<(Image, Command), NoMemory>
    ensures image { IfOk result (λ made. made.0 ≡ demo_image n) }
    ensures command { IfOk result (λ made. made.1 ≡ demo_command) }
{
    let image = image(alloc, n)?;
    Ok((image, command(alloc)?))
}

fn image(alloc: Global, n: u64) -> Result<Image, NoMemory>
    ensures { IfOk result (λ image. image ≡ demo_image n) }
{
    let mut entries = Vec::new(alloc);
    entries.push(entry(blob(alloc, b"/d")?, What::Dir))?;
    let file = Blob::new(file(alloc, n)?);
    entries.push(entry(blob(alloc, b"/work")?, What::File(file)))?;
    Ok(Image::new(FIRST_VERSION, entries))
}

fn command(alloc: Global) -> Result<Command, NoMemory>
    ensures { IfOk result (λ command. command ≡ demo_command) }
{
    let mut args = Vec::new(alloc);
    args.push(blob(alloc, b"/work")?)?;
    Ok(Command::new(args, Vec::new(alloc)))
}

// The file of the program.
fn file(alloc: Global, n: u64) -> Result<Vec<u8>, NoMemory>
    ensures { IfOk result (λ file. file.items ≡ demo_file n) }
{
    let mut file = headers(alloc, SIZE, None)?;
    add_words(&mut file, &CODE)?;
    file.extend_from_slice(&n.to_le_bytes())?;
    Ok(file)
}

// Adds words of instructions.
fn add_words(file: &mut Vec<u8>, words: &[u32]) -> Result<(), NoMemory>
    ensures { OnOk result (file.new.items ≡ file.old.items ++ flat_map (low_bytes 4) words.now) }
{
    for word in words {
        file.extend_from_slice(&word.to_le_bytes())?;
    }
    Ok(())
}

fn entry(path: Blob, what: What) -> Entry
    ensures path { result.path ≡ path }
    ensures mode { result.mode ≡ 493 }
    ensures what { result.what ≡ what }
{
    Entry {
        path,
        mode: MODE,
        what,
    }
}

fn blob(alloc: Global, bytes: &[u8]) -> Result<Blob, NoMemory>
    ensures { IfOk result (λ blob. blob ≡ bytes.now) }
{
    Ok(Blob::new(Vec::from_slice(alloc, bytes)?))
}
