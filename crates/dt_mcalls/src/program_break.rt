// The break of a process, and the call that moves it (brk(2)).
ghost use Rattle.std.specs.Prelude.{◌≡◌, true, IfOk, IfErr, OnErr};
ghost use Rattle.dt_space.specs.Space.{IsSpace};
ghost use Rattle.dt_mcalls.specs.Brk.{IsBreak, brk_of, is_brk_mapping};

use crate::lengths::whole_pages;
use dt_base::{ADDRESS_LIMIT, NoMemory};
use dt_space::{MapErr, READ, Space, WRITE};

/// The break of a process: the address behind its data, which it moves, and which never falls below its start.
#[derive(Clone, Copy, Debug, PartialEq, Eq)]
pub struct Break {
    pub start: u64,
    pub end: u64,
}

/// brk(2): moves the break to an address, and answers where it is then: where it was, if the address lies below the
/// break's start or past those that a process can have, or if the pages that are to come cannot be mapped. Pages up to
/// the break can be read and written; when it falls, those behind it go. At want of memory nothing changes.
#[tactic(auto, unfolding(crate::specs::Brk::brk_of))]
pub fn brk(program_break: &mut Break, space: &mut Space, address: u64) -> Result<u64, NoMemory>
    ensures called { IfOk result (λ _. brk_of program_break.old space.old address
        ≡ record { program_break = program_break.new; pages = space.new }) }
    ensures answer { IfOk result (λ answer. answer ≡ program_break.new.end) }
    ensures memory { IfErr result (λ _. is_brk_mapping program_break.old space.old address ≡ true) }
    ensures break_kept { OnErr result (program_break.new ≡ program_break.old) }
    ensures pages_kept { OnErr result (space.new ≡ space.old) }
    ensures break_sound { IsBreak program_break.old → IsBreak program_break.new }
    ensures sound { IsSpace space.new }
{
    let _sound = space.pages();
    if address < program_break.start || address > ADDRESS_LIMIT {
        return Ok(program_break.end);
    }
    let old = whole_pages(program_break.end);
    let new = whole_pages(address);
    if new > old {
        match space.map(old, new - old, READ | WRITE) {
            Ok(()) => {}
            Err(MapErr::NoMemory) => return Err(NoMemory),
            Err(_) => return Ok(program_break.end),
        }
    } else {
        space.unmap(new, old - new);
    }
    program_break.end = address;
    Ok(address)
}
