// What others may see of a live process, and its own calls change, beside its machine.
ghost use Rattle.std.specs.Prelude.{◌≡◌, ◌≤◌, IsSome};
ghost use Rattle.std.specs.FinMap.{get, insert};
ghost use Rattle.dt_base.specs.declared.abi.TheConstants.{SIGNAL_LIMIT};
ghost use Rattle.dt_calls.specs.Container.{blank_task, task_in, tasks_after_raise};
ghost use Rattle.dt_calls.specs.Clone.{child_task};
ghost use Rattle.dt_calls.specs.Execve.{task_after_start, task_after_exec};
ghost use Rattle.dt_calls.specs.FileCalls.{task_after_answer};

use crate::numbers::FIRST_UMASK;
use dt_base::abi::SIGPIPE;
use dt_base::{Answer, Caller, FIRST_PID};
use dt_late::Polling;
use dt_mcalls::Break;
use dt_signals::Sig;
use dt_tables::Numbered;
use dt_tree::ROOT;

/// A live process but for its machine.
#[derive(Clone, Copy, Debug)]
pub struct Task {
    /// Its pid, its working directory and its file mode mask.
    pub caller: Caller,
    /// The address behind its data, and the least that this may be.
    pub program_break: Break,
    /// What it does about signals, which are masked, which are pending, and its timer.
    pub signals: Sig,
    /// What is known of its ppoll(2), if that waits.
    pub polling: Polling,
}

impl Task {
    /// The first process before it has a program: its working directory is the root, it has no data, and all signals
    /// have the default action.
    pub fn first() -> Self
        ensures { result ≡ blank_task FIRST_PID }
    {
        Task {
            caller: Caller {
                vpid: FIRST_PID,
                cwd: ROOT,
                umask: FIRST_UMASK,
                done: 0,
            },
            program_break: Break { start: 0, end: 0 },
            signals: Sig::new(),
            polling: Polling::Idle,
        }
    }

    /// The task of a child with this pid (fork(2)).
    pub fn fork(&self, vpid: u32) -> Self
        ensures { result ≡ child_task self.now vpid }
    {
        Task {
            caller: Caller {
                vpid,
                ..self.caller
            },
            program_break: self.program_break,
            signals: self.signals.fork(),
            polling: self.polling,
        }
    }

    // Lets the break start where a program's does.
    fn start(&mut self, break_start: u64)
        ensures { self.new ≡ task_after_start break_start self.old }
    {
        self.program_break = Break {
            start: break_start,
            end: break_start,
        };
    }

    // Goes on as another program, whose break starts there: handlers are gone (execve(2)).
    fn exec(&mut self, break_start: u64)
        ensures { self.new ≡ task_after_exec break_start self.old }
    {
        self.start(break_start);
        self.signals.after_exec();
    }

    // Notes what a call has moved that answers so, and lets SIGPIPE be pending after a write to a pipe that nobody reads.
    fn answered(&mut self, answer: &Answer)
        ensures { self.new ≡ task_after_answer answer.now self.old }
    {
        match answer {
            Answer::Waits => {}
            Answer::Part(moved) => self.caller.done = *moved,
            Answer::Pipe(_) => {
                self.caller.done = 0;
                self.signals.raise(SIGPIPE);
            }
            Answer::Value(_) | Answer::Refused(_) | Answer::Output(_, _) | Answer::Unsupported =>
                self.caller.done = 0,
        }
    }
}

/// Lets the break of a live process start where a program's does.
pub fn start_task(tasks: &mut Numbered<Task>, vpid: u32, break_start: u64)
    requires { IsSome (get tasks.old vpid) }
    ensures { tasks.new ≡ insert tasks.old vpid (task_after_start break_start (task_in tasks.old vpid)) }
{
    match tasks.get_mut(u64::from(vpid)) {
        Some(task) => task.start(break_start),
        None => unreachable!(),
    }
}

/// Lets a live process go on as another program, whose break starts there.
pub fn exec_task(tasks: &mut Numbered<Task>, vpid: u32, break_start: u64)
    requires { IsSome (get tasks.old vpid) }
    ensures { tasks.new ≡ insert tasks.old vpid (task_after_exec break_start (task_in tasks.old vpid)) }
{
    match tasks.get_mut(u64::from(vpid)) {
        Some(task) => task.exec(break_start),
        None => unreachable!(),
    }
}

/// Lets a live process have the answer of its call on files.
pub fn answer_task(tasks: &mut Numbered<Task>, vpid: u32, answer: &Answer)
    requires { IsSome (get tasks.old vpid) }
    ensures { tasks.new ≡ insert tasks.old vpid (task_after_answer answer.now (task_in tasks.old vpid)) }
{
    match tasks.get_mut(u64::from(vpid)) {
        Some(task) => task.answered(answer),
        None => unreachable!(),
    }
}

/// Lets a signal be pending at a process, if that lives.
pub fn raise_at(tasks: &mut Numbered<Task>, vpid: u32, signal: u8)
    requires least { 1 ≤ signal }
    requires greatest { signal ≤ SIGNAL_LIMIT }
    ensures { tasks.new ≡ tasks_after_raise vpid signal tasks.old }
{
    match tasks.get_mut(u64::from(vpid)) {
        Some(task) => task.signals.raise(signal),
        None => {}
    }
}
