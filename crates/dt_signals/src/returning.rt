// The return from a handler.
ghost use Rattle.std.specs.Prelude.{◌≡◌, MatchResult, OnErr, Ok, Err};
ghost use Rattle.dt_rv64.specs.Valid.{IsMachine};
ghost use Rattle.dt_signals.specs.Return.{sigreturn_of, sigreturn_state};

use crate::frame::{registers_in, word_in};
use crate::numbers::{FRAME_MASK, FRAME_PC, FRAME_SIZE};
use crate::signals::Sig;
use dt_base::abi::SP;
use dt_rv64::Machine;
use dt_space::Miss;

/// Gives back the program counter, the registers and the mask that the handler's frame at the stack pointer keeps
/// (sigreturn(2)). Where a byte of the frame can't be read, that is answered, and all stays.
#[tactic(auto, unfolding(crate::specs::Return::sigreturn_of))]
pub fn sigreturn(machine: &mut Machine, sig: &mut Sig) -> Result<(), Miss>
    ensures returned { MatchResult result
        (λ _. sigreturn_of sig.old machine.old ≡ Ok (sigreturn_state sig.new machine.new))
        (λ miss. sigreturn_of sig.old machine.old ≡ Err miss) }
    ensures sound { IsMachine machine.old → IsMachine machine.new }
    ensures machine { OnErr result (machine.new ≡ machine.old) }
    ensures signals { OnErr result (sig.new ≡ sig.old) }
{
    let mut frame = [0; FRAME_SIZE];
    machine.space.read_bytes(machine.reg(SP), &mut frame)?;
    machine.pc = word_in(&frame, FRAME_PC);
    machine.regs = registers_in(&frame);
    machine.reserved = None;
    sig.set_mask(word_in(&frame, FRAME_MASK));
    Ok(())
}
