// The machine that starts an executable.
ghost use Rattle.std.specs.Prelude.{◌≡◌, ◌≤◌, ◌<◌, ◌^◌, ◌+◌, ◌*◌, ◌/◌, [], ◌++◌, ◌↔◌, false, length, replicate, IfOk};
ghost use Rattle.std.specs.Prelude.{Ok, Err, Some, None};
ghost use Rattle.dt_rv64.specs.Valid.{IsMachine};
ghost use Rattle.dt_space.specs.Space.{IsSpace, granted_rights};
ghost use Rattle.dt_space.specs.Pages.{pages_from, EndsBelow};
ghost use Rattle.dt_elf.specs.Executable.{exe, executable};
ghost use Rattle.dt_elf.specs.Placed.{ArePlaced, EndBelowMappings};
ghost use Rattle.dt_elf.specs.Stack.{invocation};
ghost use Rattle.dt_elf.specs.FirstMachine.{is_too_big, first_machine, trampoline_pages, first};

use crate::elf::Elf;
use crate::header::phnum;
use crate::layout::{STACK_PAGES, STACK_START, TRAMPOLINE, TRAMPOLINE_CODE};
use crate::pages::{load, touch_more_than};
use crate::stack::{Stack, are_too_many, make_stack};
use dt_base::abi::SP;
use dt_base::{Command, NoMemory, PAGE_LIMIT, PAGE_SIZE, PATH_LIMIT};
use dt_rv64::Machine;
use dt_space::{EXECUTE, MapErr, READ, Space, WRITE};
use std::alloc::Global;
use thiserror::Error;

/// Why an executable has no first machine.
#[derive(Clone, Copy, Debug, PartialEq, Eq, Error)]
pub enum StartErr {
    #[error("the pages or the words pass their limit")]
    TooBig,
    #[error("out of memory")]
    NoMemory,
}

impl From<NoMemory> for StartErr {
    ghost use Rattle.std.specs.Prelude.{◌≡◌};
    ghost use Rattle.dt_elf.specs.declared.first_machine.StartErr.TheVariants.{NoMemory};

    ghost from_gives = { λ _ error. error ≡ NoMemory };

    fn from(_: NoMemory) -> Self {
        StartErr::NoMemory
    }
}

/// The machine that starts the executable of a file with a command's words, the path that it is executed by, of at
/// most 4,095 bytes, 16 random bytes, and whether it has atomics. `TooBig` comes exactly where the words or the pages
/// pass their limit.
pub fn start(
    alloc: Global,
    elf: &Elf,
    bytes: &[u8],
    command: &Command,
    execfn: &[u8],
    random: &[u8; 16],
    atomics: bool,
) -> Result<Machine, StartErr>
    requires read { exe bytes.now ≡ Ok (executable elf.now) }
    requires short { length execfn.now ≤ PATH_LIMIT }
    ensures machine { IfOk result (λ machine.
        first (executable elf.now) bytes.now (invocation command.now execfn.now random.now) atomics
        ≡ Some machine) }
    ensures sound { IfOk result IsMachine }
    ensures too_big { (result ≡ Err StartErr.TooBig)
        ↔ (first (executable elf.now) bytes.now (invocation command.now execfn.now random.now) atomics ≡ None) }
{
    if is_too_big(elf, command) {
        return Err(StartErr::TooBig);
    }
    Ok(make_machine(alloc, elf, bytes, command, execfn, random, atomics)?)
}

// Whether the words or the pages pass their limit.
fn is_too_big(elf: &Elf, command: &Command) -> bool
    requires { EndBelowMappings elf.now.segments.items }
    ensures { result ≡ is_too_big (executable elf.now) command.now }
{
    are_too_many(command) || touch_more_than(PAGE_LIMIT - STACK_PAGES - 1, &elf.segments)
}

// The machine, where nothing passes its limit.
fn make_machine(
    alloc: Global,
    elf: &Elf,
    bytes: &[u8],
    command: &Command,
    execfn: &[u8],
    random: &[u8; 16],
    atomics: bool,
) -> Result<Machine, NoMemory>
    requires placed { ArePlaced bytes.now elf.now.segments.items }
    requires entry { elf.now.entry < 2 ^ 64 }
    requires short { length execfn.now ≤ PATH_LIMIT }
    requires few { is_too_big (executable elf.now) command.now ≡ false }
    ensures machine { IfOk result (λ machine. machine
        ≡ first_machine (executable elf.now) bytes.now (invocation command.now execfn.now random.now) atomics) }
    ensures sound { IfOk result IsMachine }
{
    let segments = load(alloc, &elf.segments, bytes)?;
    let stack = make_stack(alloc, elf, phnum(bytes), command, execfn, random)?;
    let space = with_stack(alloc, segments, &stack)?;
    let mut regs = [0; 32];
    regs[usize::from(SP)] = stack.pointer;
    Ok(Machine {
        regs,
        pc: elf.entry,
        space,
        reserved: None,
        atomics,
    })
}

// The pages of segments with those of the stack and the trampoline.
fn with_stack(alloc: Global, segments: Space, stack: &Stack) -> Result<Space, NoMemory>
    requires below { EndsBelow segments (STACK_START / PAGE_SIZE) }
    requires few { length segments + STACK_PAGES + 1 ≤ PAGE_LIMIT }
    requires some { 0 < stack.now.zero_pages }
    requires within { stack.now.zero_pages ≤ STACK_PAGES }
    ensures pages { IfOk result (λ space. space
        ≡ segments ++ pages_from (STACK_START / PAGE_SIZE) (granted_rights (READ + WRITE))
        (replicate (PAGE_SIZE * stack.now.zero_pages) 0 ++ stack.now.contents.items) STACK_PAGES
        ++ trampoline_pages) }
    ensures sound { IfOk result IsSpace }
{
    let first = STACK_START / PAGE_SIZE;
    let space = with_zero_pages(segments, first, stack.zero_pages)?;
    let space = space.with_pages(
        alloc,
        first + stack.zero_pages,
        STACK_PAGES - stack.zero_pages,
        READ + WRITE,
        &stack.contents,
    )?;
    space.with_pages(
        alloc,
        TRAMPOLINE / PAGE_SIZE,
        1,
        READ + EXECUTE,
        &TRAMPOLINE_CODE,
    )
}

// The space with pages of zeros above all of its own. They share their bytes, so that many cost no more than one.
#[tactic(auto, using(crate::proofs::ZeroPages::allowed_above))]
fn with_zero_pages(mut space: Space, first: u64, count: u64) -> Result<Space, NoMemory>
    requires some { 0 < count }
    requires above { EndsBelow space first }
    requires low { first + count ≤ 2 ^ 26 }
    requires few { length space + count ≤ PAGE_LIMIT }
    ensures { IfOk result (λ more. more ≡ space ++ pages_from first (granted_rights (READ + WRITE)) [] count) }
{
    match space.map(first, count, READ + WRITE) {
        Ok(()) => Ok(space),
        Err(MapErr::NoMemory) => Err(NoMemory),
        // The range is neither empty nor too high, no page of it is there, and there is room.
        Err(_) => unreachable!(),
    }
}
