// Changes of descriptors that leave the tree and the pipes.
ghost use Rattle.std.specs.Prelude.{◌≡◌, ◌<◌, ◌≤◌, None, Some, IsSome, IfSome, OnOk, OnErr, IsErrOf};
ghost use Rattle.std.specs.FinMap.{get};
ghost use Rattle.dt_tree.specs.FileTree.{FileTree};
ghost use Rattle.dt_tree.specs.Calls.{UnlessFailed};
ghost use Rattle.dt_fds.specs.declared.desc.TheConstants.{DESCRIPTOR_LIMIT};
ghost use Rattle.dt_fds.specs.Descriptions.{slot_at, description_at, is_after, is_of_dir, with_slot_description};
ghost use Rattle.dt_fds.specs.inner.Copies.{with_copy};
ghost use Rattle.dt_fds.specs.Descriptions.{at_spot};
ghost use Rattle.dt_fds.specs.Descriptions.{with_flags, with_cloexec, with_duplicate, table_at, with_table};
ghost use Rattle.dt_fds.specs.Descriptions.{with_shared_table};
ghost use Rattle.dt_fds.specs.Pipes.{PipesView};
ghost use Rattle.dt_fds.specs.Holding.{holding_of, dup_call};
ghost use Rattle.dt_fds.specs.Backs.{KeepsNodes, IsFilesAnswer, HasFailed};

use crate::desc::{DESCRIPTOR_LIMIT, Slot, Spot};
use crate::descriptors::Descriptors;
use dt_base::{Errno, NoMemory};
use dt_host::{CallErr, HostErr};

impl Descriptors {
    /// Lets the lowest free descriptor from a given one on refer to the description of an open one (dup(2); fcntl(2),
    /// F_DUPFD). EBADF where that is not open, then EMFILE where none is free.
    #[tactic(auto, unfolding(crate::specs::Holding::dup_call))]
    pub(crate) fn dup(
        &mut self,
        pid: u32,
        fd: u32,
        from: u32,
        cloexec: bool,
    ) -> Result<u32, CallErr>
        ensures call { (t : FileTree) (pipes : PipesView) → IsFilesAnswer result (holding_of t pipes self.new)
            (dup_call pid fd from cloexec (holding_of t pipes self.old)) }
        ensures nodes { UnlessFailed result (KeepsNodes pid self.old self.new) }
        ensures quiet { HasFailed result → ⊥ }
    {
        match self.slot(pid, fd) {
            Some(slot) => match self.free(pid, from) {
                Some(new) => {
                    self.living(pid, fd, slot);
                    self.share(pid, new, slot, cloexec)?;
                    Ok(new)
                }
                None => Err(CallErr::Errno(Errno::MFile)),
            },
            None => Err(CallErr::Errno(Errno::BadF)),
        }
    }

    /// Gives the open file description of a descriptor another offset (lseek(2)), or point in its listing; all that
    /// refer to it see that. Nothing is done where the descriptor is not open.
    pub(crate) fn set_place(&mut self, pid: u32, fd: u32, spot: Spot)
        requires { IfSome (description_at self.old pid fd)
            (λ desc. is_after spot ≡ is_of_dir desc.kind) }
        ensures files { self.new ≡ with_slot_description self.old (at_spot spot) (slot_at self.old pid fd) }
        ensures nodes { KeepsNodes pid self.old self.new }
    {
        match self.slot(pid, fd) {
            Some(slot) => {
                self.living(pid, fd, slot);
                self.move_to(slot.number, spot);
            }
            None => {}
        }
    }

    /// Gives the open file description of a descriptor other flags (fcntl(2), F_SETFL); all that refer to it see them.
    /// Nothing is done where the descriptor is not open.
    pub(crate) fn set_flags(&mut self, pid: u32, fd: u32, append: bool, nonblock: bool)
        ensures files { self.new
            ≡ with_slot_description self.old (with_flags append nonblock) (slot_at self.old pid fd) }
        ensures nodes { KeepsNodes pid self.old self.new }
    {
        match self.slot(pid, fd) {
            Some(slot) => {
                self.living(pid, fd, slot);
                self.flag(slot.number, append, nonblock);
            }
            None => {}
        }
    }

    /// Gives a descriptor another close-on-exec bit, which is its own (fcntl(2), F_SETFD). Nothing is done where it is
    /// not open.
    pub(crate) fn set_cloexec(&mut self, pid: u32, fd: u32, cloexec: bool)
        ensures files { self.new ≡ with_cloexec self.old pid fd cloexec (slot_at self.old pid fd) }
        ensures nodes { KeepsNodes pid self.old self.new }
    {
        match self.slot(pid, fd) {
            Some(slot) => self.mark(pid, fd, slot, cloexec),
            None => {}
        }
    }

    /// Gives a child a table like its parent's: its descriptors refer to the same descriptions, and have the same
    /// close-on-exec bits (fork(2); clone(2) without CLONE_FILES). Offsets and flags are shared from then on. A parent
    /// that has no table gives none.
    #[tactic(auto, using(crate::proofs::Sharing::sharing))]
    pub(crate) fn share_all(&mut self, parent: u32, child: u32) -> Result<(), NoMemory>
        requires { get self.old.tables child ≡ None }
        ensures files { OnOk result (self.new ≡ with_shared_table parent child self.old) }
        ensures nodes { KeepsNodes child self.old self.new }
    {
        if self.has_table(parent) {
            self.copy_table(parent, child)?;
        }
        Ok(())
    }

    // Gives a child a table like its parent's, which has one.
    fn copy_table(&mut self, parent: u32, child: u32) -> Result<(), NoMemory>
        requires parent { IsSome (get self.old.tables parent) }
        requires child { get self.old.tables child ≡ None }
        ensures files { OnOk result (self.new ≡ with_table self.old child (table_at self.old parent)) }
        ensures nodes { KeepsNodes child self.old self.new }
    {
        self.sized(parent);
        self.begin(child)?;
        for fd in 0..DESCRIPTOR_LIMIT as u32 {
            self.share_slot(parent, child, fd)?;
        }
        Ok(())
    }

    // Lets a free descriptor of a child refer to what its parent's refers to, if that is open.
    fn share_slot(&mut self, parent: u32, child: u32, fd: u32) -> Result<(), NoMemory>
        requires table { IsSome (get self.old.tables child) }
        requires within { fd < DESCRIPTOR_LIMIT }
        requires free { slot_at self.old child fd ≡ None }
        ensures ok { OnOk result
            (self.new ≡ with_copy self.old child fd (slot_at self.old parent fd)) }
        ensures err { OnErr result (self.new ≡ self.old) }
    {
        match self.slot(parent, fd) {
            Some(slot) => {
                self.living(parent, fd, slot);
                self.place(child, fd, slot)
            }
            None => Ok(()),
        }
    }

    // Lets a free descriptor refer to what a slot refers to.
    pub(crate) fn share(
        &mut self,
        pid: u32,
        new: u32,
        slot: Slot,
        cloexec: bool,
    ) -> Result<(), HostErr>
        requires table { IsSome (get self.old.tables pid) }
        requires within { new < DESCRIPTOR_LIMIT }
        requires free { slot_at self.old pid new ≡ None }
        requires living { IsSome (get self.old.descs slot.number) }
        ensures files { OnOk result (self.new ≡ with_duplicate self.old pid new slot cloexec) }
        ensures quiet { IsErrOf result HostErr.Failed → ⊥ }
    {
        let number = slot.number;
        self.place(pid, new, Slot { number, cloexec })?;
        Ok(())
    }
}
