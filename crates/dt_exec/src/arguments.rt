// What execve(2) is handed in memory beside a path: two lists of words.
ghost use Rattle.std.specs.Prelude.{◌≡◌, Err, IfOk, IsTrue, MatchResult, MatchOption};
ghost use Rattle.dt_base.specs.Path.{has_no_nul};
ghost use Rattle.dt_exec.specs.Arguments.{word_at, words_at, list_argument, one_at_least};
ghost use Rattle.dt_exec.specs.Arguments.{within_limit, command_argument};
ghost use Rattle.dt_exec.specs.inner.Listed.{AreListed, IsTooBig};

mod rest;

use crate::limits::{LIST_ENTRY, LIST_LIMIT};
use crate::word_list::WordList;
use dt_base::{ADDRESS_LIMIT, Blob, Command, Errno, NoMemory};
use dt_elf::are_too_many;
use dt_space::{Space, text_or};
use rest::is_readable;
use std::alloc::Global;

/// The words of two lists: EFAULT where a byte of either can't be read, else E2BIG where they count more than 131,072.
#[tactic(auto, unfolding(crate::specs::Arguments::command_argument))]
pub fn command_argument(
    alloc: Global,
    space: &Space,
    argv: u64,
    envp: u64,
) -> Result<Result<Command, Errno>, NoMemory>
    ensures { IfOk result (λ command. command ≡ command_argument space.now argv envp) }
{
    let args = match list_argument(alloc, space, argv)? {
        Ok(args) => args,
        Err(errno) => return Ok(Err(errno)),
    };
    let env = match list_argument(alloc, space, envp)? {
        Ok(env) => env,
        Err(errno) => return Ok(Err(errno)),
    };
    let Some(args) = args else {
        return Ok(Err(Errno::TooBig));
    };
    let Some(env) = env else {
        return Ok(Err(Errno::TooBig));
    };
    Ok(within_limit(Command::new(one_at_least(args)?, env)))
}

// A word of a list, which has no limit of its own.
fn word_at(space: &Space, at: u64) -> Result<Result<Blob, Errno>, NoMemory>
    ensures value { IfOk result (λ word. word ≡ word_at space.now at) }
    ensures no_nul { IfOk result (λ word. IfOk word (λ bytes. IsTrue (has_no_nul bytes))) }
{
    text_or(Errno::Fault, space, at, ADDRESS_LIMIT as usize)
}

// The words of a list; None where they count more than the limit.
fn list_argument(
    alloc: Global,
    space: &Space,
    at: u64,
) -> Result<Result<Option<Vec<Blob>>, Errno>, NoMemory>
    ensures { IfOk result (λ found. MatchResult found
        (λ list. MatchOption list
        (IsTooBig (list_argument space.now at)) (λ words. AreListed (list_argument space.now at) words.items))
        (λ errno. list_argument space.now at ≡ Err errno)) }
{
    if at == 0 {
        return Ok(Ok(Some(Vec::new(alloc))));
    }
    words_at(alloc, space, at)
}

// The words of a list that is not at address 0.
fn words_at(
    alloc: Global,
    space: &Space,
    at: u64,
) -> Result<Result<Option<Vec<Blob>>, Errno>, NoMemory>
    ensures { IfOk result (λ found. MatchResult found
        (λ list. MatchOption list (IsTooBig (words_at space.now at LIST_LIMIT))
        (λ words. AreListed (words_at space.now at LIST_LIMIT) words.items))
        (λ errno. words_at space.now at LIST_LIMIT ≡ Err errno)) }
{
    let mut list = WordList::new(alloc);
    let mut next = at;
    for index in 0..LIST_LIMIT {
        let Ok(entry) = space.load8(next) else {
            return Ok(Err(Errno::Fault));
        };
        if entry == 0 {
            return Ok(Ok(list.within_limit()));
        }
        match word_at(space, entry)? {
            Ok(word) => list.add(word)?,
            Err(errno) => return Ok(Err(errno)),
        }
        next = next.wrapping_add(LIST_ENTRY);
        if list.is_past_limit() {
            if is_readable(alloc, space, next, LIST_LIMIT - 1 - index)? {
                return Ok(Ok(None));
            }
            return Ok(Err(Errno::Fault));
        }
    }
    Ok(Err(Errno::Fault))
}

// The words, or one empty word where there is none.
fn one_at_least(words: Vec<Blob>) -> Result<Vec<Blob>, NoMemory>
    ensures { IfOk result (λ some. some.items ≡ one_at_least words.items) }
{
    let mut some = words;
    if some.is_empty() {
        some.push(Blob::new(Vec::new(*some.allocator())))?;
    }
    Ok(some)
}

// A command, unless its words count more than the limit.
fn within_limit(command: Command) -> Result<Command, Errno>
    ensures { result ≡ within_limit command }
{
    if are_too_many(&command) {
        return Err(Errno::TooBig);
    }
    Ok(command)
}
