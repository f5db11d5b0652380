// The stack of a program that starts.
ghost use Rattle.std.specs.Prelude.{◌≡◌, ◌+◌, ◌-◌, ◌*◌, ◌^◌, ◌≤◌, ◌<◌, ◌++◌, length, replicate, nat_lt};
ghost use Rattle.std.specs.Prelude.{IfOk, OnOk, MatchOption};
ghost use Rattle.dt_elf.specs.Executable.{executable};
ghost use Rattle.dt_elf.specs.Stack.{invocation, aligned_address, pointer_below, args_start, terminated_words};
ghost use Rattle.dt_elf.specs.Stack.{word_addresses, strings};
ghost use Rattle.dt_elf.specs.Stack.{auxiliary_vector, stack_words_at, stack_pointer, word_bytes, stack_layout};
ghost use Rattle.dt_elf.specs.Stack.{stack_contents};
ghost use Rattle.dt_elf.specs.Stack.{words_size};

use crate::elf::Elf;
use crate::layout::{
    AT_CLKTCK, AT_EGID, AT_ENTRY, AT_EUID, AT_EXECFN, AT_GID, AT_NULL, AT_PAGESZ, AT_PHDR,
    AT_PHENT, AT_PHNUM, AT_RANDOM, AT_SECURE, AT_UID, CLOCK_TICKS, HEADER_SIZE, RANDOM_SIZE,
    ROOT_ID, STACK_ALIGN, STACK_PAGES, STACK_START, STACK_TOP,
};
use dt_base::{ARGUMENT_LIMIT, Blob, Command, NoMemory, PAGE_SIZE, PATH_LIMIT};
use std::alloc::Global;

/// A stack: its pointer, how many pages of zeros lie below the page that holds this, and its bytes above them. The
/// zeros are not laid out, since they are most of the stack.
#[derive(Drop)]
pub(crate) struct Stack {
    pub pointer: u64,
    pub zero_pages: u64,
    pub contents: Vec<u8>,
}

/// Whether the words of a command are more than an execution takes.
pub fn are_too_many(command: &Command) -> bool
    ensures { result ≡ nat_lt ARGUMENT_LIMIT (words_size command.now.args + words_size command.now.env) }
{
    match room_after(command.args(), ARGUMENT_LIMIT) {
        Some(room) => room_after(command.env(), room).is_none(),
        None => true,
    }
}

// What is left of some room after words, or None where they need more.
fn room_after(words: &[Blob], room: u64) -> Option<u64>
    ensures { MatchOption result (room < words_size words.now) (λ left. left + words_size words.now ≡ room) }
{
    let mut left = room;
    for word in words {
        left = left.checked_sub(word.len() as u64)?.checked_sub(9)?;
    }
    Some(left)
}

/// The stack that an executable with so many program headers starts with.
pub(crate) fn make_stack(
    alloc: Global,
    elf: &Elf,
    headers: u16,
    command: &Command,
    execfn: &[u8],
    random: &[u8; 16],
) -> Result<Stack, NoMemory>
    requires few { words_size command.now.args + words_size command.now.env ≤ ARGUMENT_LIMIT }
    requires short { length execfn.now ≤ PATH_LIMIT }
    ensures pointer { IfOk result (λ stack. stack.pointer
        ≡ stack_pointer (executable elf.now) headers (invocation command.now execfn.now random.now)) }
    ensures contents { IfOk result (λ stack. replicate (PAGE_SIZE * stack.zero_pages) 0 ++ stack.contents.items
        ≡ stack_contents (executable elf.now) headers (invocation command.now execfn.now random.now)) }
    ensures zeros { IfOk result (λ stack. (0 < stack.zero_pages) × (stack.zero_pages ≤ STACK_PAGES)) }
{
    let text = strings(alloc, command, execfn, random)?;
    let start = aligned_address(STACK_TOP - text.len() as u64);
    let words = words(alloc, elf, headers, command, execfn, start)?;
    let pointer = pointer_below(start, words.len() as u64);
    let zero_pages = (pointer - STACK_START) / PAGE_SIZE;
    let first = STACK_START + PAGE_SIZE * zero_pages;
    let contents = lay_out(alloc, first, pointer, &words, start, &text)?;
    Ok(Stack {
        pointer,
        zero_pages,
        contents,
    })
}

// The stack pointer, with so many words below the strings.
fn pointer_below(start: u64, words: u64) -> u64
    requires { 8 * words ≤ start }
    ensures { result ≡ pointer_below start words }
{
    aligned_address(start - 8 * words)
}

// An address rounded down to the stack's alignment.
fn aligned_address(address: u64) -> u64
    ensures { result ≡ aligned_address address }
{
    address / STACK_ALIGN * STACK_ALIGN
}

// The strings that the words of the stack point to.
fn strings(
    alloc: Global,
    command: &Command,
    execfn: &[u8],
    random: &[u8; 16],
) -> Result<Vec<u8>, NoMemory>
    ensures { IfOk result (λ text. text.items ≡ strings (invocation command.now execfn.now random.now)) }
{
    let mut text = Vec::new(alloc);
    text.extend_from_slice(random)?;
    text.extend_from_slice(execfn)?;
    text.push(0)?;
    push_terminated(&mut text, command.args())?;
    push_terminated(&mut text, command.env())?;
    Ok(text)
}

// Appends words, each with its 0.
fn push_terminated(text: &mut Vec<u8>, words: &[Blob]) -> Result<(), NoMemory>
    ensures { OnOk result (text.new.items ≡ text.old.items ++ terminated_words words.now) }
{
    for word in words {
        text.extend_from_slice(word.as_slice())?;
        text.push(0)?;
    }
    Ok(())
}

// The words below the strings, which stand from `start` on.
fn words(
    alloc: Global,
    elf: &Elf,
    headers: u16,
    command: &Command,
    execfn: &[u8],
    start: u64,
) -> Result<Vec<u64>, NoMemory>
    requires few { words_size command.now.args + words_size command.now.env ≤ ARGUMENT_LIMIT }
    requires short { length execfn.now ≤ PATH_LIMIT }
    requires low { start ≤ STACK_TOP }
    ensures { IfOk result (λ words.
        words.items ≡ stack_words_at (executable elf.now) headers command.now execfn.now start) }
{
    let mut words = Vec::new(alloc);
    words.push(command.args().len() as u64)?;
    let args_at = args_start(start, execfn);
    let env_at = push_addresses(&mut words, command.args(), args_at)?;
    words.push(0)?;
    push_addresses(&mut words, command.env(), env_at)?;
    words.push(0)?;
    words.extend_from_slice(&auxiliary_vector(elf, headers, start))?;
    Ok(words)
}

// The address of the first argument, with the strings from `start` on.
fn args_start(start: u64, execfn: &[u8]) -> u64
    requires low { start ≤ STACK_TOP }
    requires short { length execfn.now ≤ PATH_LIMIT }
    ensures { result ≡ args_start start execfn.now }
{
    start + RANDOM_SIZE + execfn.len() as u64 + 1
}

// Appends the addresses of words that follow one another, the first at `address`, and gives the end of the last.
fn push_addresses(list: &mut Vec<u64>, words: &[Blob], address: u64) -> Result<u64, NoMemory>
    requires { address + length (terminated_words words.now) < 2 ^ 63 }
    ensures listed { IfOk result (λ _. list.new.items ≡ list.old.items ++ word_addresses address words.now) }
    ensures end { IfOk result (λ end. end ≡ address + length (terminated_words words.now)) }
{
    let mut next = address;
    for word in words {
        list.push(next)?;
        next += word.len() as u64 + 1;
    }
    Ok(next)
}

fn auxiliary_vector(elf: &Elf, headers: u16, start: u64) -> [u64; 28]
    requires { start ≤ STACK_TOP }
    ensures { result ≡ auxiliary_vector (executable elf.now) headers start }
{
    [
        AT_PHDR,
        elf.phdr,
        AT_PHENT,
        HEADER_SIZE,
        AT_PHNUM,
        u64::from(headers),
        AT_PAGESZ,
        PAGE_SIZE,
        AT_ENTRY,
        elf.entry,
        AT_UID,
        ROOT_ID,
        AT_EUID,
        ROOT_ID,
        AT_GID,
        ROOT_ID,
        AT_EGID,
        ROOT_ID,
        AT_CLKTCK,
        CLOCK_TICKS,
        AT_SECURE,
        0,
        AT_RANDOM,
        start,
        AT_EXECFN,
        start + RANDOM_SIZE,
        AT_NULL,
        0,
    ]
}

// The stack's bytes from an address on, below which they are zeros.
fn lay_out(
    alloc: Global,
    first: u64,
    pointer: u64,
    words: &[u64],
    start: u64,
    text: &[u8],
) -> Result<Vec<u8>, NoMemory>
    requires above { STACK_START ≤ first }
    requires below { first ≤ pointer }
    requires apart { pointer + 8 * length words.now ≤ start }
    ensures { IfOk result (λ bytes.
        replicate (first - STACK_START) 0 ++ bytes.items ≡ stack_layout pointer words.now start text.now) }
{
    let mut bytes = vec![in alloc; 0; (pointer - first) as usize]?;
    push_words(&mut bytes, words)?;
    bytes.resize((start - first) as usize, 0)?;
    bytes.extend_from_slice(text)?;
    Ok(bytes)
}

// Appends words, the lowest byte of each first.
fn push_words(bytes: &mut Vec<u8>, words: &[u64]) -> Result<(), NoMemory>
    ensures { OnOk result (bytes.new.items ≡ bytes.old.items ++ word_bytes words.now) }
{
    for word in words {
        bytes.extend_from_slice(&word.to_le_bytes())?;
    }
    Ok(())
}
