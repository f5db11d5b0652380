// The steps of guests, as words say them. A child has the answers that its parent kept before it was made, until it
// begins anew. A handler keeps its answers apart, and returns to those of what it came between.
use crate::error::CaseErr;
use crate::numbers::Numbers;
use crate::steps::code::{
    add, call, clone, count_up, enter, fill, go, keep, look, look_above, put, put_action,
    put_handler, relay, repeat, skip, spin, start, tell, times, write,
};
use crate::steps::layout::{ACTION, ANSWERS, ENDS, GOT, MASK, NOTES, OLD_ACTION, OLD_MASK};
use crate::text::{bytes, split_word, unreadable};
use dt_asm::Guest;
use dt_rv64::Instr;
use std::alloc::Global;

// Calls (asm-generic/unistd.h), and a signal.
const CLOSE: i64 = 57;

const PIPE2: i64 = 59;

const READ: i64 = 63;

const WRITE: i64 = 64;

const EXIT: i64 = 93;

const SCHED_YIELD: i64 = 124;

const RT_SIGACTION: i64 = 134;

const RT_SIGPROCMASK: i64 = 135;

const SIGCHLD: i64 = 17;

// Registers: the return address, and those of a call's answer and its third argument.
const RA: u8 = 1;

const A0: u8 = 10;

const A2: u8 = 12;

/// Adds the step that a line says.
pub fn take(
    alloc: Global,
    guest: &mut Guest,
    numbers: &Numbers,
    line: &str,
) -> Result<(), CaseErr> {
    let (word, rest) = split_word(line);
    let taken = if word == "text" {
        take_text(alloc, guest, numbers, rest)?
    } else {
        let values = numbers.list(rest)?;
        take_kept(guest, word, &values)?
            || take_signal(guest, word, &values)?
            || take_unkept(guest, word, &values)?
            || take_loop(guest, word, &values)?
            || take_alone(guest, word, &values)?
    };
    if taken {
        Ok(())
    } else {
        Err(unreadable(alloc, line))
    }
}

// The label, or another number of 32 bits, that a value is.
fn small(value: i64) -> Result<u32, CaseErr> {
    u32::try_from(value).map_err(|_| CaseErr::Range(value))
}

// The register of this number.
fn register(value: i64) -> Result<u8, CaseErr> {
    u8::try_from(value).map_err(|_| CaseErr::Range(value))
}

// Up to eight bytes are stored at an address, and zeros behind them up to eight.
fn take_text(
    alloc: Global,
    guest: &mut Guest,
    numbers: &Numbers,
    rest: &str,
) -> Result<bool, CaseErr> {
    let (at, text) = split_word(rest);
    let at = numbers.number(at)?;
    let bytes = bytes(alloc, text)?;
    let mut eight = [0u8; 8];
    for (place, byte) in eight.iter_mut().zip(&bytes) {
        *place = *byte;
    }
    put(guest, at, i64::from_le_bytes(eight))?;
    Ok(bytes.len() <= eight.len())
}

// A step that makes one call and keeps its answer.
fn take_kept(guest: &mut Guest, word: &str, values: &[i64]) -> Result<bool, CaseErr> {
    match (word, values) {
        ("call", [number, arguments @ ..]) => call(guest, *number, arguments)?,
        ("pipe", [flags]) => call(guest, PIPE2, &[ENDS, *flags])?,
        ("read", [_, _, _]) => call(guest, READ, values)?,
        ("write", [_, _, _]) => call(guest, WRITE, values)?,
        ("close", [_]) => call(guest, CLOSE, values)?,
        ("fork", [label]) => clone(guest, &[SIGCHLD, 0], small(*label)?)?,
        ("clone", [arguments @ .., label]) => clone(guest, arguments, small(*label)?)?,
        _ => return Ok(false),
    }
    keep(guest, A0)?;
    Ok(true)
}

// A step that makes one call for signals and keeps its answer.
fn take_signal(guest: &mut Guest, word: &str, values: &[i64]) -> Result<bool, CaseErr> {
    match (word, values) {
        ("handle", [signal, label, flags, mask]) => {
            put_handler(guest, small(*label)?, *flags, *mask)?;
            call(guest, RT_SIGACTION, &[*signal, ACTION, 0, 8])?;
        }
        ("act", [signal, handler, flags, mask]) => {
            put_action(guest, *handler, *flags, *mask)?;
            call(guest, RT_SIGACTION, &[*signal, ACTION, OLD_ACTION, 8])?;
        }
        ("mask", [how, mask]) => {
            put(guest, MASK, *mask)?;
            call(guest, RT_SIGPROCMASK, &[*how, MASK, OLD_MASK, 8])?;
        }
        _ => return Ok(false),
    }
    keep(guest, A0)?;
    Ok(true)
}

// A step that makes calls whose answers are not kept.
fn take_unkept(guest: &mut Guest, word: &str, values: &[i64]) -> Result<bool, CaseErr> {
    match (word, values) {
        ("show", []) => {
            add(guest, A2, A0, 0)?;
            write(guest, 1, GOT)?;
        }
        ("relay", [start, end, from, to, count]) => {
            relay(guest, [small(*start)?, small(*end)?], *from, *to, *count)?;
        }
        ("pass", [count]) => pass(guest, *count)?,
        ("tell", []) => tell(guest, ANSWERS)?,
        ("note", []) => tell(guest, NOTES)?,
        ("start", []) => start(guest)?,
        ("exit", [_]) => call(guest, EXIT, values)?,
        ("trap", []) => guest.ins(Instr::Ecall)?,
        _ => return Ok(false),
    }
    Ok(true)
}

// Calls of sched_yield(2).
fn pass(guest: &mut Guest, count: i64) -> Result<(), CaseErr> {
    for _ in 0..count {
        call(guest, SCHED_YIELD, &[])?;
    }
    Ok(())
}

// A step that is a loop or a part of one.
fn take_loop(guest: &mut Guest, word: &str, values: &[i64]) -> Result<bool, CaseErr> {
    match (word, values) {
        ("times", [label, count]) => times(guest, small(*label)?, *count)?,
        ("again", [label]) => repeat(guest, small(*label)?)?,
        ("spin", [label, count]) => spin(guest, small(*label)?, *count)?,
        ("count", [label, first, count]) => count_up(guest, small(*label)?, *first, *count)?,
        ("fill", [label, at, number, count]) => {
            fill(guest, small(*label)?, *at, *number, *count)?;
        }
        _ => return Ok(false),
    }
    Ok(true)
}

// A step that makes no call and no loop.
fn take_alone(guest: &mut Guest, word: &str, values: &[i64]) -> Result<bool, CaseErr> {
    match (word, values) {
        ("at", [label]) => enter(guest, small(*label)?, ANSWERS)?,
        ("handler", [label]) => enter(guest, small(*label)?, NOTES)?,
        ("put", [at, number]) => put(guest, *at, *number)?,
        ("look", [at]) => look(guest, *at, 1)?,
        ("looks", [at, count]) => look(guest, *at, small(*count)?)?,
        ("above", [offset, count]) => look_above(guest, *offset, small(*count)?)?,
        ("keep", [name]) => keep(guest, register(*name)?)?,
        ("set", [name, number]) => guest.li(register(*name)?, *number)?,
        ("skip", []) => skip(guest)?,
        ("return", []) => go(guest, RA)?,
        ("word", [word]) => guest.bytes(&small(*word)?.to_le_bytes())?,
        ("break", []) => guest.ins(Instr::Ebreak)?,
        _ => return Ok(false),
    }
    Ok(true)
}
