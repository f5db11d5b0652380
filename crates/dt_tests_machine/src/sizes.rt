// What an executable may take: pages, and words of a command.
ghost use Rattle.std.specs.Prelude.{◌≤◌, length};

use crate::expect::{same, same_at};
use crate::files::{Header, RANDOM, command, file, load};
use dt_base::{Command, PATH_LIMIT};
use dt_elf::{ElfErr, StartErr, read_elf, start};
use std::alloc::Global;
use std::process::Abort;
use std::test::Fail;

// How many pages a file has that is started, or why it isn't.
fn pages_of(
    alloc: Global,
    bytes: &[u8],
    command: &Command,
) -> Result<Result<usize, StartErr>, ElfErr> {
    let elf = read_elf(alloc, bytes)?;
    Ok(
        match start(alloc, &elf, bytes, command, b"/p", &RANDOM, false) {
            Ok(machine) => Ok(machine.space.pages()),
            Err(error) => Err(error),
        },
    )
}

// The same of a file with these segments.
fn pages(
    alloc: Global,
    command: &Command,
    headers: &[Header],
) -> Result<Result<usize, StartErr>, Fail> {
    let bytes = file(alloc, headers)?;
    Ok(pages_of(alloc, &bytes, command)?)
}

const FULL: Result<usize, StartErr> = Ok(16_384);

const TOO_BIG: Result<usize, StartErr> = Err(StartErr::TooBig);

// Segments, each by its address and size.
const LIMITS: &[(u64, u64, Result<usize, StartErr>)] = &[
    (0x1000, 16_127 * 4096, FULL),
    (0x1000, 16_127 * 4096 + 1, TOO_BIG),
    (0x1fff, 16_126 * 4096 + 1, FULL),
    (0x1fff, 16_126 * 4096 + 2, TOO_BIG),
    (0x1000, 0x1f_ffff_f000, TOO_BIG),
];

fn expect_limits(rt: &impl Abort, alloc: Global, command: &Command) -> Result<(), Fail> {
    for (vaddr, memsz, want) in LIMITS {
        let headers = [load(6, 0, *vaddr, 0, *memsz)];
        same_at(rt, *memsz, pages(alloc, command, &headers)?, *want);
    }
    Ok(())
}

// With the stack's 256 pages and the trampoline, 16,127 pages of segments are the limit.
#[test]
fn pages_at_their_limit_and_one_past_it(rt: HostRuntime) -> Result<(), Fail> {
    let command = command(rt.alloc(), &[b"a"], &[])?;
    expect_limits(&rt, rt.alloc(), &command)
}

// Ends the test unless a segment at this address fits, or doesn't, beside one that leaves a page.
fn expect_second(
    rt: &impl Abort,
    alloc: Global,
    command: &Command,
    second: u64,
    fits: bool,
) -> Result<(), Fail> {
    let headers = [
        load(6, 0, 0x1000, 0, 16_127 * 4096 - 4095),
        load(6, 0, second, 0, 1),
    ];
    same_at(rt, second, pages(alloc, command, &headers)?.is_ok(), fits);
    Ok(())
}

// A page that two segments touch counts once.
#[test]
fn a_shared_page_counts_once(rt: HostRuntime) -> Result<(), Fail> {
    let command = command(rt.alloc(), &[b"a"], &[])?;
    expect_second(&rt, rt.alloc(), &command, 0x3ef_f800, true)?;
    expect_second(&rt, rt.alloc(), &command, 0x3f0_0000, false)
}

// Ends the test unless a file is refused so with a long word in its environment, and with it among its arguments.
fn expect_words(
    rt: &impl Abort,
    alloc: Global,
    bytes: &[u8],
    long: &[u8],
    short: &[u8],
    refusal: Option<StartErr>,
) -> Result<(), Fail> {
    same(rt, refusal_with(alloc, bytes, &[short], &[long])?, refusal);
    same(rt, refusal_with(alloc, bytes, &[long], &[short])?, refusal);
    Ok(())
}

// The sum of each word's length and 9 is at most 131,072. The path that a program is executed by isn't counted.
#[test]
fn words_at_their_limit_and_one_past_it(rt: HostRuntime) -> Result<(), Fail> {
    let alloc = rt.alloc();
    let bytes = dt_asm::hello(alloc)?.elf()?;
    let long = vec![in alloc; b'a'; 131_072 - 19]?;
    expect_words(&rt, alloc, &bytes, &long, b"a", None)?;
    let refusal = Some(StartErr::TooBig);
    expect_words(&rt, alloc, &bytes, &long, b"ab", refusal)
}

// Why a file isn't started with these arguments and environment, by a path of 4095 bytes.
fn refusal_with(
    alloc: Global,
    bytes: &[u8],
    args: &[&[u8]],
    env: &[&[u8]],
) -> Result<Option<StartErr>, Fail> {
    let command = command(alloc, args, env)?;
    let path = vec![in alloc; b'p'; 4095]?;
    refusal_of(alloc, bytes, &command, &path)
}

// Why a file isn't started.
fn refusal_of(
    alloc: Global,
    bytes: &[u8],
    command: &Command,
    path: &[u8],
) -> Result<Option<StartErr>, Fail>
    requires { length path.now ≤ PATH_LIMIT }
{
    let elf = read_elf(alloc, bytes)?;
    Ok(start(alloc, &elf, bytes, command, path, &RANDOM, false).err())
}
