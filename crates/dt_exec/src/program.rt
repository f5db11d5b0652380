// The program that an execution starts (execve(2)).
ghost use Rattle.std.specs.Prelude.{◌≡◌, ◌<◌, ◌≤◌, length, IfOk, IfSome, IsTrue};
ghost use Rattle.dt_base.specs.Path.{has_no_nul};
ghost use Rattle.dt_host.specs.Asks.{Asks};
ghost use Rattle.dt_host.specs.World.{IsDir, IsLive, file_at};
ghost use Rattle.dt_tree.specs.Table.{Stands, shape_of};
ghost use Rattle.dt_elf.specs.Stack.{invocation};
ghost use Rattle.dt_exec.specs.Script.{HasNoNul};
ghost use Rattle.dt_exec.specs.Program.{argv0, file_or_errno, file_by_path, program_of_interpreter};
ghost use Rattle.dt_exec.specs.Program.{program_of_script, program_at, program_of, start_program, execve_program};

use crate::arguments::command_argument;
use crate::lookup::lookup;
use crate::script::{Script, is_script, script_command, script_of};
use dt_base::{Blob, Command, Errno, NoMemory, PATH_LIMIT};
use dt_elf::{ElfErr, StartErr, are_too_many, read_elf, start};
use dt_host::{Host, HostErr};
use dt_rv64::Machine;
use dt_space::{Space, path_argument};
use dt_tree::{ROOT, Tree};
use std::alloc::Global;

/// A program that can be started: its first machine, and the address where its break starts.
#[derive(Drop)]
pub struct Program {
    pub machine: Machine,
    pub break_start: u64,
}

/// The program of a command, whose first argument is its path from the root, with 16 random bytes, on a machine with
/// atomics or without; or why it can't be started: ENOENT, ENAMETOOLONG, E2BIG, EACCES, ENOEXEC, or a refusal of the path
/// (execve(2)).
#[tactic(auto, unfolding(crate::specs::Program::start_program))]
pub fn start_program<H: Host>(
    alloc: Global,
    host: &mut H,
    tree: &Tree,
    command: &Command,
    random: &[u8; 16],
    atomics: bool,
) -> Result<Result<Program, Errno>, HostErr>
    requires { Stands tree.now (H.view host.old).forest }
    ensures ok { IfOk result (λ started. started
        ≡ start_program (shape_of tree.now (H.view host.old).forest) command.now random.now atomics) }
    ensures asks { Asks H.view H.count host.old host.new result }
{
    let _before = host.faults();
    let path = argv0(command.args()).as_slice();
    if path.len() == 0 {
        return Ok(Err(Errno::NoEnt));
    }
    if path.len() as u64 > PATH_LIMIT {
        return Ok(Err(Errno::NameTooLong));
    }
    if are_too_many(command) {
        return Ok(Err(Errno::TooBig));
    }
    program_at(alloc, host, tree, ROOT, command, path, random, atomics)
}

/// The program that a process executes in a working directory, with 16 random bytes; path, argv and envp are addresses
/// in its memory. Refusals are EFAULT, ENAMETOOLONG, ENOENT, E2BIG, EACCES, ENOEXEC and those of the path (execve(2)).
#[tactic(auto, unfolding(crate::specs::Program::execve_program))]
pub fn execve_program<H: Host>(
    alloc: Global,
    host: &mut H,
    tree: &Tree,
    cwd: u64,
    space: &Space,
    path: u64,
    argv: u64,
    envp: u64,
    random: &[u8; 16],
    atomics: bool,
) -> Result<Result<Program, Errno>, HostErr>
    requires stands { Stands tree.now (H.view host.old).forest }
    requires directory { IsDir (shape_of tree.now (H.view host.old).forest) cwd }
    ensures ok { IfOk result (λ started. started ≡ execve_program
        (shape_of tree.now (H.view host.old).forest) cwd space.now path argv envp random.now atomics) }
    ensures asks { Asks H.view H.count host.old host.new result }
{
    let _before = host.faults();
    let path = match path_argument(space, path)? {
        Ok(path) => path,
        Err(errno) => return Ok(Err(errno)),
    };
    match command_argument(alloc, space, argv, envp)? {
        Ok(command) => program_at(
            alloc,
            host,
            tree,
            cwd,
            &command,
            path.as_slice(),
            random,
            atomics,
        ),
        Err(errno) => Ok(Err(errno)),
    }
}

// argv[0], which is the program's path.
fn argv0(args: &[Blob]) -> &Blob
    requires { 0 < length args.now }
    ensures { result.now ≡ argv0 args.now }
{
    &args[0]
}

#[tactic(auto, unfolding(crate::specs::Program::program_at))]
fn program_at<H: Host>(
    alloc: Global,
    host: &mut H,
    tree: &Tree,
    cwd: u64,
    command: &Command,
    path: &[u8],
    random: &[u8; 16],
    atomics: bool,
) -> Result<Result<Program, Errno>, HostErr>
    requires stands { Stands tree.now (H.view host.old).forest }
    requires directory { IsDir (shape_of tree.now (H.view host.old).forest) cwd }
    requires short { length path.now ≤ PATH_LIMIT }
    requires no_nul { IsTrue (has_no_nul path.now) }
    ensures ok { IfOk result (λ started. started ≡ program_at
        (shape_of tree.now (H.view host.old).forest) cwd (invocation command.now path.now random.now) atomics) }
    ensures asks { Asks H.view H.count host.old host.new result }
{
    let _before = host.faults();
    let file = match file_by_path(alloc, host, tree, cwd, path)? {
        Ok(file) => file,
        Err(errno) => return Ok(Err(errno)),
    };
    let bytes = file.as_slice();
    if is_script(bytes) {
        let script = script_of(alloc, bytes)?;
        return program_of_script(
            alloc, host, tree, cwd, command, path, random, script, atomics,
        );
    }
    Ok(program_of(alloc, bytes, command, path, random, atomics)?)
}

// The program of a script, which is None where its first line is bad.
fn program_of_script<H: Host>(
    alloc: Global,
    host: &mut H,
    tree: &Tree,
    cwd: u64,
    command: &Command,
    path: &[u8],
    random: &[u8; 16],
    script: Option<Script>,
    atomics: bool,
) -> Result<Result<Program, Errno>, HostErr>
    requires stands { Stands tree.now (H.view host.old).forest }
    requires directory { IsDir (shape_of tree.now (H.view host.old).forest) cwd }
    requires short { length path.now ≤ PATH_LIMIT }
    requires no_nul { IsTrue (has_no_nul path.now) }
    requires script { IfSome script HasNoNul }
    ensures ok { IfOk result (λ started. started ≡ program_of_script
        (shape_of tree.now (H.view host.old).forest) cwd (invocation command.now path.now random.now) script atomics) }
    ensures asks { Asks H.view H.count host.old host.new result }
{
    let _before = host.faults();
    let Some(script) = script else {
        return Ok(Err(Errno::NoExec));
    };
    let file = file_by_path(alloc, host, tree, cwd, script.interpreter.as_slice())?;
    let command = script_command(alloc, script, path, command)?;
    Ok(program_of_interpreter(alloc, file, &command, path, random, atomics)?)
}

// The program of an interpreter's file.
fn program_of_interpreter(
    alloc: Global,
    file: Result<Blob, Errno>,
    command: &Command,
    path: &[u8],
    random: &[u8; 16],
    atomics: bool,
) -> Result<Result<Program, Errno>, NoMemory>
    requires { length path.now ≤ PATH_LIMIT }
    ensures { IfOk result (λ started. started
        ≡ program_of_interpreter (invocation command.now path.now random.now) file atomics) }
{
    match file {
        Ok(bytes) if is_script(bytes.as_slice()) => Ok(Err(Errno::NoExec)),
        Ok(bytes) => program_of(alloc, bytes.as_slice(), command, path, random, atomics),
        Err(errno) => Ok(Err(errno)),
    }
}

// The bytes of the file that a path leads to.
#[tactic(auto, unfolding(crate::specs::Program::file_by_path))]
fn file_by_path<H: Host>(
    alloc: Global,
    host: &mut H,
    tree: &Tree,
    cwd: u64,
    path: &[u8],
) -> Result<Result<Blob, Errno>, HostErr>
    requires stands { Stands tree.now (H.view host.old).forest }
    requires directory { IsDir (shape_of tree.now (H.view host.old).forest) cwd }
    ensures ok { IfOk result (λ file. file
        ≡ file_by_path (shape_of tree.now (H.view host.old).forest) cwd path.now) }
    ensures asks { Asks H.view H.count host.old host.new result }
{
    let _before = host.faults();
    match lookup(alloc, host, tree, cwd, path)? {
        Ok(Some(inode)) => file_of(host, tree, inode),
        Ok(None) => Ok(Err(Errno::NoEnt)),
        Err(errno) => Ok(Err(errno)),
    }
}

// The bytes of a node that is a file.
fn file_of<H: Host>(host: &mut H, tree: &Tree, inode: u64) -> Result<Result<Blob, Errno>, HostErr>
    requires stands { Stands tree.now (H.view host.old).forest }
    requires live { IsLive (shape_of tree.now (H.view host.old).forest) inode }
    ensures ok { IfOk result (λ file. file
        ≡ file_or_errno (file_at (shape_of tree.now (H.view host.old).forest) inode)) }
    ensures asks { Asks H.view H.count host.old host.new result }
{
    if tree.is_dir(inode) || tree.is_link(inode) || tree.device(inode).is_some() {
        return Ok(Err(Errno::Acces));
    }
    Ok(Ok(Blob::new(tree.read_file(host, inode)?)))
}

// The program of an executable's bytes.
#[tactic(auto, unfolding(crate::specs::Program::program_of))]
fn program_of(
    alloc: Global,
    bytes: &[u8],
    command: &Command,
    path: &[u8],
    random: &[u8; 16],
    atomics: bool,
) -> Result<Result<Program, Errno>, NoMemory>
    requires { length path.now ≤ PATH_LIMIT }
    ensures { IfOk result (λ started.
        started ≡ program_of (invocation command.now path.now random.now) bytes.now atomics) }
{
    let elf = match read_elf(alloc, bytes) {
        Ok(elf) => elf,
        Err(ElfErr::NoMemory) => return Err(NoMemory),
        Err(_) => return Ok(Err(Errno::NoExec)),
    };
    match start(alloc, &elf, bytes, command, path, random, atomics) {
        Ok(machine) => Ok(Ok(Program {
            machine,
            break_start: elf.program_break(),
        })),
        Err(StartErr::TooBig) => Ok(Err(Errno::TooBig)),
        Err(StartErr::NoMemory) => Err(NoMemory),
    }
}
