// The open files of processes, with the pipes of which some are ends.
ghost use Rattle.std.specs.Prelude.{◌≡◌, ◌≤◌, None, IfSome, OnOk, OnErr, IsErrOf, is_some};
ghost use Rattle.std.specs.Option.{option_copied, is_none};
ghost use Rattle.std.specs.FinMap.{get};
ghost use Rattle.dt_tree.specs.FileTree.{FileTree};
ghost use Rattle.dt_tree.specs.Calls.{UnlessFailed};
ghost use Rattle.dt_fds.specs.declared.desc.TheConstants.{DESCRIPTOR_LIMIT};
ghost use Rattle.dt_fds.specs.Descriptions.{IsDesc, table_at, slot_at, description_at, cloexec_at, lowest_free};
ghost use Rattle.dt_fds.specs.Descriptions.{with_slot_description, at_spot, with_flags, with_cloexec, is_after};
ghost use Rattle.dt_fds.specs.Descriptions.{is_of_dir};
ghost use Rattle.dt_fds.specs.Descriptions.{with_shared_table};
ghost use Rattle.dt_fds.specs.Pipes.{PipesView};
ghost use Rattle.dt_fds.specs.Holding.{holding_of, dup_call};
ghost use Rattle.dt_fds.specs.Backs.{KeepsNodes, IsFilesAnswer, HasFailed};
ghost use Rattle.dt_fds.specs.OpenFiles.{with_descriptors};

use crate::desc::{DESCRIPTOR_LIMIT, Desc, Spot};
use crate::descriptors::Descriptors;
use crate::ends::Ends;
use dt_base::NoMemory;
use dt_host::CallErr;
use dt_pipes::Pipes;
use dt_tables::Numbered;

/// The open files of processes: the open file descriptions, for each process by its pid a table of descriptors that
/// refer to them, and the pipes of which some are ends. Processes share a description after fork(2), and descriptors
/// of one process after dup(2).
#[derive(Drop)]
pub struct Files {
    pub descriptors: Descriptors,
    pub pipes: Pipes,
    /// Which ends of each pipe are open.
    pub ends: Numbered<Ends>,
}

impl Files {
    /// The open file description that a descriptor refers to; none exactly where the process has no such descriptor.
    pub fn look(&self, pid: u32, fd: u32) -> Option<&Desc>
        ensures desc { option_copied result ≡ description_at self.now.descriptors pid fd }
        ensures open { is_some (option_copied result) ≡ is_some (slot_at self.now.descriptors pid fd) }
        ensures good { IfSome (option_copied result) IsDesc }
    {
        self.descriptors.look(pid, fd)
    }

    /// Whether no descriptor of a process is free.
    pub fn is_full(&self, pid: u32) -> bool
        ensures { result ≡ is_none (lowest_free (table_at self.now.descriptors pid) 0) }
    {
        self.descriptors.is_full(pid)
    }

    /// A descriptor's close-on-exec bit; none where the process has no such descriptor (fcntl(2), F_GETFD).
    pub fn is_cloexec(&self, pid: u32, fd: u32) -> Option<bool>
        ensures { result ≡ cloexec_at self.now.descriptors pid fd }
    {
        self.descriptors.is_cloexec(pid, fd)
    }

    /// Lets the lowest free descriptor from a given one on refer to the description of an open one (dup(2); fcntl(2),
    /// F_DUPFD). EBADF where that is not open, then EMFILE where none is free, as from 64 on.
    pub fn dup(&mut self, pid: u32, fd: u32, from: u32, cloexec: bool) -> Result<u32, CallErr>
        ensures call { (t : FileTree) (pipes : PipesView) → IsFilesAnswer result
            (holding_of t pipes self.new.descriptors)
            (dup_call pid fd from cloexec (holding_of t pipes self.old.descriptors)) }
        ensures nodes { UnlessFailed result (KeepsNodes pid self.old.descriptors self.new.descriptors) }
        ensures pipes { self.new.pipes ≡ self.old.pipes }
        ensures ends { self.new.ends ≡ self.old.ends }
        ensures quiet { HasFailed result → ⊥ }
    {
        self.descriptors.dup(pid, fd, from, cloexec)
    }

    /// Gives the open file description of a descriptor another offset (lseek(2)), or point in its listing; all that
    /// refer to it see that. Nothing is done where the descriptor is not open.
    pub fn set_place(&mut self, pid: u32, fd: u32, spot: Spot)
        requires { IfSome (description_at self.old.descriptors pid fd)
            (λ desc. is_after spot ≡ is_of_dir desc.kind) }
        ensures files { self.new ≡ with_descriptors self.old
            (with_slot_description self.old.descriptors (at_spot spot) (slot_at self.old.descriptors pid fd)) }
        ensures nodes { KeepsNodes pid self.old.descriptors self.new.descriptors }
    {
        self.descriptors.set_place(pid, fd, spot);
    }

    /// Gives the open file description of a descriptor other flags (fcntl(2), F_SETFL); all that refer to it see them.
    /// Nothing is done where the descriptor is not open.
    pub fn set_flags(&mut self, pid: u32, fd: u32, append: bool, nonblock: bool)
        ensures files { self.new ≡ with_descriptors self.old
            (with_slot_description self.old.descriptors (with_flags append nonblock)
            (slot_at self.old.descriptors pid fd)) }
        ensures nodes { KeepsNodes pid self.old.descriptors self.new.descriptors }
    {
        self.descriptors.set_flags(pid, fd, append, nonblock);
    }

    /// Gives a descriptor another close-on-exec bit, which is its own (fcntl(2), F_SETFD). Nothing is done where it is
    /// not open.
    pub fn set_cloexec(&mut self, pid: u32, fd: u32, cloexec: bool)
        ensures files { self.new ≡ with_descriptors self.old
            (with_cloexec self.old.descriptors pid fd cloexec (slot_at self.old.descriptors pid fd)) }
        ensures nodes { KeepsNodes pid self.old.descriptors self.new.descriptors }
    {
        self.descriptors.set_cloexec(pid, fd, cloexec);
    }

    /// Gives a child a table like its parent's: its descriptors refer to the same descriptions, and have the same
    /// close-on-exec bits (fork(2); clone(2) without CLONE_FILES). Offsets and flags are shared from then on. A parent
    /// that has no table gives none.
    pub fn share_all(&mut self, parent: u32, child: u32) -> Result<(), NoMemory>
        requires { get self.old.descriptors.tables child ≡ None }
        ensures files { OnOk result (self.new.descriptors ≡ with_shared_table parent child self.old.descriptors) }
        ensures nodes { KeepsNodes child self.old.descriptors self.new.descriptors }
        ensures pipes { self.new.pipes ≡ self.old.pipes }
        ensures ends { self.new.ends ≡ self.old.ends }
    {
        self.descriptors.share_all(parent, child)
    }
}
