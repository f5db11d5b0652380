// Scripts, whose first line names the interpreter that runs them (execve(2), "Interpreter scripts").
ghost use Rattle.std.specs.Prelude.{◌≡◌, ◌<◌, ◌++◌, [], length, IfOk, IfSome, OnOk, IsTrue};
ghost use Rattle.std.specs.List.{position, position_or_len};
ghost use Rattle.dt_base.specs.Path.{has_no_nul};
ghost use Rattle.dt_exec.specs.Script.{HasNoNul, is_script, is_lf, is_blank, first_line, without_leading_blanks};
ghost use Rattle.dt_exec.specs.Script.{without_trailing_blanks};
ghost use Rattle.dt_exec.specs.Script.{some_word, script_of_text, script_of_line, script_of, script_args};

use crate::limits::{SCRIPT_LINE_LIMIT, SCRIPT_MARK};
use dt_base::{Blob, Command, NoMemory, has_no_nul};
use std::alloc::Global;

/// The path of a script's interpreter, and the argument that the script gives it.
#[derive(Debug, Drop)]
pub struct Script {
    pub interpreter: Blob,
    pub argument: Option<Blob>,
}

/// Whether a file begins as a script does.
pub fn is_script(bytes: &[u8]) -> bool
    ensures { result ≡ is_script bytes.now }
{
    bytes.starts_with(&SCRIPT_MARK)
}

/// The script that a file is; None where its first line is over 255 bytes, has a NUL or names no interpreter.
pub fn script_of(alloc: Global, bytes: &[u8]) -> Result<Option<Script>, NoMemory>
    ensures value { IfOk result (λ script. script ≡ script_of bytes.now) }
    ensures no_nul { IfOk result (λ script. IfSome script HasNoNul) }
{
    script_of_line(alloc, first_line(bytes))
}

/// The command that runs a script: its interpreter's path, what the script says, the script's path, and the arguments
/// from the second on, with the same environment.
pub fn script_command(
    alloc: Global,
    script: Script,
    path: &[u8],
    command: &Command,
) -> Result<Command, NoMemory>
    requires script { HasNoNul script }
    requires path { IsTrue (has_no_nul path.now) }
    ensures args { IfOk result (λ run. run.args ≡ script_args script path.now command.now.args) }
    ensures env { IfOk result (λ run. run.env ≡ command.now.env) }
    ensures input { IfOk result (λ run. run.input ≡ []) }
{
    let args = script_args(alloc, script, path, command.args())?;
    let mut env = Vec::new(alloc);
    push_copies(&mut env, command.env())?;
    Ok(Command::new(args, env))
}

// The script that a first line makes.
#[tactic(auto, unfolding(crate::specs::Script::script_of_line))]
fn script_of_line(alloc: Global, line: &[u8]) -> Result<Option<Script>, NoMemory>
    ensures { IfOk result (λ script. script ≡ script_of_line line.now) }
{
    if line.len() as u64 > SCRIPT_LINE_LIMIT || !has_no_nul(line) {
        return Ok(None);
    }
    let (_, text) = line.split_at(line.len().min(SCRIPT_MARK.len()));
    script_of_text(alloc, without_trailing_blanks(without_leading_blanks(text)))
}

// The script of a first line without its mark and the blanks at its ends.
#[tactic(auto, unfolding(crate::specs::Script::script_of_text))]
fn script_of_text(alloc: Global, text: &[u8]) -> Result<Option<Script>, NoMemory>
    ensures { IfOk result (λ script. script ≡ script_of_text text.now) }
{
    let (path, rest) = text.split_at(word_len(text));
    if path.is_empty() {
        return Ok(None);
    }
    let interpreter = blob_of(alloc, path)?;
    let argument = some_word(alloc, without_leading_blanks(rest))?;
    Ok(Some(Script {
        interpreter,
        argument,
    }))
}

// A word, unless it is empty.
fn some_word(alloc: Global, word: &[u8]) -> Result<Option<Blob>, NoMemory>
    ensures { IfOk result (λ found. found ≡ some_word word.now) }
{
    if word.is_empty() {
        return Ok(None);
    }
    Ok(Some(blob_of(alloc, word)?))
}

// All before the first LF, or all.
#[tactic(auto, unfolding(crate::specs::Script::first_line))]
fn first_line(bytes: &[u8]) -> &[u8]
    ensures { result.now ≡ first_line bytes.now }
{
    let (line, _) = bytes.split_at(line_len(bytes));
    line
}

fn line_len(bytes: &[u8]) -> usize
    ensures { result ≡ position_or_len is_lf bytes.now }
{
    match first_lf(bytes) {
        Some(end) => end,
        None => bytes.len(),
    }
}

fn first_lf(bytes: &[u8]) -> Option<usize>
    ensures { result ≡ position is_lf bytes.now }
{
    bytes.iter().position(|byte| *byte == b'\n')
}

// How many bytes stand before the first blank.
fn word_len(text: &[u8]) -> usize
    ensures { result ≡ position_or_len is_blank text.now }
{
    match first_blank(text) {
        Some(end) => end,
        None => text.len(),
    }
}

fn first_blank(text: &[u8]) -> Option<usize>
    ensures { result ≡ position is_blank text.now }
{
    text.iter().position(|byte| is_blank(*byte))
}

fn is_blank(byte: u8) -> bool
    ensures { result ≡ is_blank byte }
{
    byte == b' ' || byte == b'\t'
}

// A text without the blanks that it begins with.
#[tactic(auto, unfolding(crate::specs::Script::without_leading_blanks))]
fn without_leading_blanks(text: &[u8]) -> &[u8]
    ensures { result.now ≡ without_leading_blanks text.now }
{
    let mut rest = text;
    while let Some((first, behind)) = rest.split_first() {
        if !is_blank(*first) {
            return rest;
        }
        rest = behind;
    }
    rest
}

// A text without the blanks that it ends with.
#[tactic(auto, unfolding(crate::specs::Script::without_trailing_blanks))]
fn without_trailing_blanks(text: &[u8]) -> &[u8]
    ensures { result.now ≡ without_trailing_blanks text.now }
{
    let mut rest = text;
    while let Some((last, before)) = rest.split_last() {
        if !is_blank(*last) {
            return rest;
        }
        rest = before;
    }
    rest
}

// The arguments of a script's interpreter.
fn script_args(
    alloc: Global,
    script: Script,
    path: &[u8],
    args: &[Blob],
) -> Result<Vec<Blob>, NoMemory>
    requires { 0 < length args.now }
    ensures { IfOk result (λ run. run.items ≡ script_args script path.now args.now) }
{
    let Script {
        interpreter,
        argument,
    } = script;
    let mut run = Vec::new(alloc);
    run.push(interpreter)?;
    if let Some(argument) = argument {
        run.push(argument)?;
    }
    run.push(blob_of(alloc, path)?)?;
    let (_, rest) = args.split_at(1);
    push_copies(&mut run, rest)?;
    Ok(run)
}

// Bytes in memory of their own.
fn blob_of(alloc: Global, bytes: &[u8]) -> Result<Blob, NoMemory>
    ensures { IfOk result (λ blob. blob ≡ bytes.now) }
{
    Ok(Blob::new(Vec::from_slice(alloc, bytes)?))
}

// Appends copies of words.
fn push_copies(words: &mut Vec<Blob>, more: &[Blob]) -> Result<(), NoMemory>
    ensures { OnOk result (words.new.items ≡ words.old.items ++ more.now) }
{
    for word in more {
        words.push(word.copy()?)?;
    }
    Ok(())
}
