// What the processes of a container share, and the task of each.
ghost use Rattle.std.specs.Prelude.{◌≡◌, ◌+◌, ◌≤◌, IsSome, IfOk, OnOk, IsErrOf};
ghost use Rattle.std.specs.FinMap.{empty, get};
ghost use Rattle.std.specs.FinSet as pid_set;
ghost use Rattle.dt_host.specs.Cause.{HasCause};
ghost use Rattle.dt_host.specs.World.{IsEmptyStart};
ghost use Rattle.dt_base.specs.declared.abi.TheConstants.{SIGNAL_LIMIT};
ghost use Rattle.dt_base.specs.Image.{ImageParts};
ghost use Rattle.dt_tree.specs.ImageTree.{image_tree};
ghost use Rattle.dt_tree.specs.Table.{Stands, tree_of};
ghost use Rattle.dt_calls.specs.Container.{first_shared, task_in, tasks_after_raise};
ghost use Rattle.dt_calls.specs.InCode.{shared_of};
ghost use Rattle.dt_calls.specs.Sound.{IsSound, ChangesTasks};

use crate::task::{Task, raise_at};
use dt_base::{Blob, FIRST_PID};
use dt_callbase::Fs;
use dt_fds::Files;
use dt_host::{Host, HostErr};
use dt_procs::Pids;
use dt_tables::Numbered;
use dt_tree::{ROOT, Tree};
use dt_virt::{Clock, Rand};
use std::alloc::Global;

/// All of a container but the machines of its processes: the file tree, the open files, the logical time and the seed's
/// words, the processes as their kin see them, and the task of each that lives.
#[derive(Drop)]
pub struct Shared {
    pub fs: Fs,
    pub pids: Pids,
    pub tasks: Numbered<Task>,
}

impl Shared {
    /// What the first process finds on an image's tree, whose root is its working directory: the input and the output
    /// streams are open, the input is empty, the time is 0, and the words are those of a seed.
    pub fn new<H: Host>(
        alloc: Global,
        host: &mut H,
        mut tree: Tree,
        seed: u64,
    ) -> Result<Self, HostErr>
        requires stands { Stands tree (H.view host.old).forest }
        requires image { (image : ImageParts) × (tree_of tree (H.view host.old).forest ≡ image_tree image) }
        requires no_pids { (H.view host.old).pids ≡ pid_set.empty }
        requires no_pipes { (H.view host.old).pipes ≡ empty }
        ensures ok { IfOk result (λ c. shared_of c (H.view host.new)
            ≡ first_shared (tree_of tree (H.view host.old).forest) seed) }
        ensures next { IfOk result (λ c. c.pids.next ≡ FIRST_PID + 1) }
        ensures sound { IfOk result (λ c. IsSound c (H.view host.new)) }
        ensures task { IfOk result (λ c. IsSome (get c.tasks FIRST_PID)) }
        ensures cause { HasCause (H.count host.old) (H.count host.new) (IsErrOf result HostErr.Failed) }
    {
        tree.hold(host, ROOT)?;
        let pids = Pids::first(alloc, host)?;
        let mut tasks = Numbered::new(alloc);
        tasks.put(u64::from(FIRST_PID), Task::first())?;
        Ok(Shared {
            fs: Fs {
                tree,
                files: Files::first(alloc, FIRST_PID)?,
                clock: Clock::new(),
                rand: Rand::new(seed),
                input: Blob::new(Vec::new(alloc)),
            },
            pids,
            tasks,
        })
    }

    /// Lets the tree, the pipes and the pids go at the host, which has no others.
    pub fn clear<H: Host>(self, host: &mut H) -> Result<(), HostErr>
        requires { IsSound self (H.view host.old) }
        ensures empty { OnOk result (IsEmptyStart (H.view host.new)) }
        ensures root { OnOk result ((H.view host.new).forest.root ≡ (H.view host.old).forest.root) }
        ensures cause { HasCause (H.count host.old) (H.count host.new) (IsErrOf result HostErr.Failed) }
    {
        let Shared { fs, pids, .. } = self;
        let Fs { tree, files, .. } = fs;
        tree.clear(host)?;
        files.pipes.clear(host)?;
        pids.clear(host)
    }

    /// The working directory of a live process, by its inode.
    pub fn cwd(&self, vpid: u32) -> u64
        requires { IsSome (get self.now.tasks vpid) }
        ensures { result ≡ (task_in self.now.tasks vpid).caller.cwd }
    {
        let Some(task) = self.tasks.get(u64::from(vpid)) else {
            unreachable!()
        };
        task.caller.cwd
    }

    /// Lets a signal be pending at a process, if that lives.
    pub fn raise(&mut self, vpid: u32, signal: u8)
        requires least { 1 ≤ signal }
        requires greatest { signal ≤ SIGNAL_LIMIT }
        ensures raised { self.new ≡ record self.old { tasks = tasks_after_raise vpid signal self.old.tasks } }
        ensures kept { ChangesTasks self.old self.new }
    {
        raise_at(&mut self.tasks, vpid, signal);
    }
}
