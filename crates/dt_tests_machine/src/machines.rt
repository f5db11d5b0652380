// What each machine keeps: 32 registers below 2^64, of which x0 is 0, and memory that is well formed.
ghost use Rattle.std.specs.Prelude.{◌≡◌, ◌+◌, ◌<◌, ◌^◌, pos, negsuc, IfSome};
ghost use Rattle.dt_rv64.specs.Valid.{IsMachine};
ghost use Rattle.dt_rv64.specs.Words.{word_of};
ghost use Rattle.dt_space.specs.declared.access.TheConstants.{READ};
ghost use Rattle.dt_space.specs.Space.{byte_at};

use crate::expect::same;
use crate::files::start_hello;
use dt_base::NoMemory;
use dt_rv64::{Machine, Step};
use dt_space::Miss;
use std::test::Fail;

// Ends the read of a counter and a call, and takes a step.
fn go_on(machine: &mut Machine, rd: u8, value: u64) -> Result<Step, NoMemory>
    ensures { IsMachine machine.old → IsMachine machine.new }
{
    machine.read_counter(rd, value);
    machine.answer(value);
    machine.step()
}

// A byte of a machine's memory, which is below 256.
fn byte_of(machine: &Machine, at: u64) -> Result<u64, Miss>
    ensures { IsMachine machine.now → IfSome (byte_at machine.now.space READ at) (λ byte. byte < 256) }
{
    machine.space.load1(at)
}

// The words of two numbers that no signed number of 64 bits is: 2^64 + 5 and -2^64 - 1.
fn far_words() -> (u64, u64)
    ensures above { result.0 ≡ word_of (pos (2 ^ 64 + 5)) }
    ensures below { result.1 ≡ word_of (negsuc (2 ^ 64)) }
{
    (5, u64::MAX)
}

#[test]
fn a_machine_stays_one(rt: HostRuntime) -> Result<(), Fail> {
    let mut machine = start_hello(rt.alloc())?;
    same(&rt, go_on(&mut machine, 0, 7)?, Step::Ran);
    same(&rt, machine.reg(0), 0);
    same(&rt, go_on(&mut machine, 5, u64::MAX)?, Step::Call);
    same(&rt, machine.reg(5), u64::MAX);
    Ok(())
}

#[test]
fn a_byte_of_memory_is_a_byte(rt: HostRuntime) -> Result<(), Fail> {
    let machine = start_hello(rt.alloc())?;
    // The file's own beginning is loaded: 0x7f and ELF.
    same(&rt, byte_of(&machine, 0x1_0000)?, 0x7f);
    same(&rt, byte_of(&machine, 0x1_0003)?, 0x46);
    Ok(())
}

#[test]
fn words_are_numbers_modulo_2_to_the_64(rt: HostRuntime) {
    same(&rt, far_words(), (5, u64::MAX));
}
