// Calls on open files that may change the tree, or take a pipe along.
ghost use Rattle.std.specs.Prelude.{◌≡◌, ◌≢◌, ◌<◌, None, Some, IsSome, IfSome, OnOk, IsErrOf};
ghost use Rattle.std.specs.FinMap.{get};
ghost use Rattle.dt_host.specs.Cause.{HasCause};
ghost use Rattle.dt_host.specs.World.{IsLive, OnlyForest};
ghost use Rattle.dt_tree.specs.FileTree.{holds_of};
ghost use Rattle.dt_tree.specs.Table.{Stands, shape_of, tree_of};
ghost use Rattle.dt_fds.specs.declared.desc.TheConstants.{DESCRIPTOR_LIMIT};
ghost use Rattle.dt_fds.specs.Descriptions.{IsDesc, inode_of, pipe_of, slot_at, with_opened};
ghost use Rattle.dt_fds.specs.OpenFiles.{pipes_at};
ghost use Rattle.dt_fds.specs.Holding.{holding_of, with_hold, without_hold, tree_without_description};
ghost use Rattle.dt_fds.specs.Holding.{without_descriptor, add_call, close_call};
ghost use Rattle.dt_fds.specs.Holding.{dup_within_limit, dup_at_call, without_descriptors_below, without_process};
ghost use Rattle.dt_fds.specs.Holding.{without_cloexec_descriptor};
ghost use Rattle.dt_fds.specs.Holding.{without_cloexec_below, without_cloexec};
ghost use Rattle.dt_fds.specs.Backs.{IsIn, IsBacked, at, holding_at, HasHolding, HasFilesAnswer};

use crate::desc::{DESCRIPTOR_LIMIT, Desc, Slot};
use crate::ends::{close_end, kind_of, remove_pipe};
use crate::files::Files;
use dt_base::{Errno, NoMemory};
use dt_host::{CallErr, Host, HostErr};
use dt_tree::Tree;

impl Files {
    /// Opens a description under the lowest free descriptor; it holds its node (open(2)). EMFILE where none is free.
    #[tactic(auto, unfolding(crate::specs::Holding::add_call))]
    pub fn add<H: Host>(
        &mut self,
        host: &H,
        tree: &mut Tree,
        pid: u32,
        desc: Desc,
        cloexec: bool,
    ) -> Result<u32, CallErr>
        requires backed { IsBacked (at self.old tree.old (H.view host.now)) }
        requires good { IsDesc desc }
        requires there { IsIn (shape_of tree.old (H.view host.now).forest) desc.kind }
        requires no_end { pipe_of desc.kind ≡ None }
        ensures { HasFilesAnswer pid (add_call pid desc cloexec) (at self.old tree.old (H.view host.now))
            (at self.new tree.new (H.view host.now)) result (H.count host.now) (H.count host.now) }
    {
        match self.descriptors.free(pid, 0) {
            Some(fd) => {
                self.open_at(host, tree, pid, fd, desc, cloexec)?;
                Ok(fd)
            }
            None => Err(CallErr::Errno(Errno::MFile)),
        }
    }

    /// Closes a descriptor; its description goes with the last one that refers to it, and lets its node go, or its pipe
    /// where it was the last end of that (close(2)).
    /// EBADF where it is not open.
    #[tactic(auto, unfolding(crate::specs::Holding::close_call))]
    pub fn close<H: Host>(
        &mut self,
        host: &mut H,
        tree: &mut Tree,
        pid: u32,
        fd: u32,
    ) -> Result<(), CallErr>
        requires { IsBacked (at self.old tree.old (H.view host.old)) }
        ensures { HasFilesAnswer pid (close_call pid fd) (at self.old tree.old (H.view host.old))
            (at self.new tree.new (H.view host.new)) result (H.count host.old) (H.count host.new) }
    {
        let _before = host.faults();
        match self.descriptors.slot(pid, fd) {
            Some(slot) => Ok(self.drop_slot(host, tree, pid, fd, slot)?),
            None => Err(CallErr::Errno(Errno::BadF)),
        }
    }

    /// Lets a descriptor refer to the description of another one; it is closed first, if it is open (dup3(2)). EBADF
    /// where the old one is not open or the new one is past the limit.
    #[tactic(auto, unfolding(crate::specs::Holding::dup_at_call))]
    pub fn dup_at<H: Host>(
        &mut self,
        host: &mut H,
        tree: &mut Tree,
        pid: u32,
        old: u32,
        new: u32,
        cloexec: bool,
    ) -> Result<(), CallErr>
        requires backed { IsBacked (at self.old tree.old (H.view host.old)) }
        requires apart { old ≢ new }
        ensures { HasFilesAnswer pid (dup_at_call pid old new cloexec) (at self.old tree.old (H.view host.old))
            (at self.new tree.new (H.view host.new)) result (H.count host.old) (H.count host.new) }
    {
        let _before = host.faults();
        if new as usize >= DESCRIPTOR_LIMIT {
            return Err(CallErr::Errno(Errno::BadF));
        }
        self.dup_within_limit(host, tree, pid, old, new, cloexec)
    }

    // The same for a new descriptor within the limit.
    #[tactic(auto, unfolding(crate::specs::Holding::dup_within_limit))]
    fn dup_within_limit<H: Host>(
        &mut self,
        host: &mut H,
        tree: &mut Tree,
        pid: u32,
        old: u32,
        new: u32,
        cloexec: bool,
    ) -> Result<(), CallErr>
        requires backed { IsBacked (at self.old tree.old (H.view host.old)) }
        requires apart { old ≢ new }
        requires within { new < DESCRIPTOR_LIMIT }
        ensures { HasFilesAnswer pid (dup_within_limit pid old new cloexec) (at self.old tree.old (H.view host.old))
            (at self.new tree.new (H.view host.new)) result (H.count host.old) (H.count host.new) }
    {
        let _before = host.faults();
        match self.descriptors.slot(pid, old) {
            Some(slot) => {
                self.free_slot(host, tree, pid, new)?;
                self.descriptors.living(pid, old, slot);
                self.descriptors.share(pid, new, slot, cloexec)?;
                Ok(())
            }
            None => Err(CallErr::Errno(Errno::BadF)),
        }
    }

    /// Closes all descriptors of a process that ends; its table goes (_exit(2)).
    #[tactic(auto, unfolding(crate::specs::Holding::without_process))]
    pub fn drop_all<H: Host>(
        &mut self,
        host: &mut H,
        tree: &mut Tree,
        pid: u32,
    ) -> Result<(), HostErr>
        requires { IsBacked (at self.old tree.old (H.view host.old)) }
        ensures { HasHolding pid (without_process pid (holding_at (at self.old tree.old (H.view host.old))))
            (at self.old tree.old (H.view host.old)) (at self.new tree.new (H.view host.new))
            result (H.count host.old) (H.count host.new) }
    {
        self.close_all(host, tree, pid)?;
        self.descriptors.forget(pid);
        Ok(())
    }

    /// Closes those descriptors of a process, in order, whose close-on-exec bit is set (execve(2)).
    #[tactic(auto, unfolding(crate::specs::Holding::without_cloexec_below))]
    pub fn close_exec<H: Host>(
        &mut self,
        host: &mut H,
        tree: &mut Tree,
        pid: u32,
    ) -> Result<(), HostErr>
        requires { IsBacked (at self.old tree.old (H.view host.old)) }
        ensures { HasHolding pid (without_cloexec pid (holding_at (at self.old tree.old (H.view host.old))))
            (at self.old tree.old (H.view host.old)) (at self.new tree.new (H.view host.new))
            result (H.count host.old) (H.count host.new) }
    {
        let _before = host.faults();
        for fd in 0..DESCRIPTOR_LIMIT as u32 {
            self.free_marked(host, tree, pid, fd)?;
        }
        Ok(())
    }

    // Closes all descriptors of a process.
    #[tactic(auto, unfolding(crate::specs::Holding::without_descriptors_below))]
    fn close_all<H: Host>(&mut self, host: &mut H, tree: &mut Tree, pid: u32) -> Result<(), HostErr>
        requires { IsBacked (at self.old tree.old (H.view host.old)) }
        ensures { HasHolding pid (without_descriptors_below pid DESCRIPTOR_LIMIT
            (holding_at (at self.old tree.old (H.view host.old))))
            (at self.old tree.old (H.view host.old)) (at self.new tree.new (H.view host.new))
            result (H.count host.old) (H.count host.new) }
    {
        let _before = host.faults();
        for fd in 0..DESCRIPTOR_LIMIT as u32 {
            self.free_slot(host, tree, pid, fd)?;
        }
        Ok(())
    }

    // Opens a description under a free descriptor.
    fn open_at<H: Host>(
        &mut self,
        host: &H,
        tree: &mut Tree,
        pid: u32,
        fd: u32,
        desc: Desc,
        cloexec: bool,
    ) -> Result<(), HostErr>
        requires backed { IsBacked (at self.old tree.old (H.view host.now)) }
        requires good { IsDesc desc }
        requires there { IsIn (shape_of tree.old (H.view host.now).forest) desc.kind }
        requires no_end { pipe_of desc.kind ≡ None }
        requires table { IsSome (get self.old.descriptors.tables pid) }
        requires within { fd < DESCRIPTOR_LIMIT }
        requires free { slot_at self.old.descriptors pid fd ≡ None }
        ensures { HasHolding pid (holding_of
            (with_hold (tree_of tree.old (H.view host.now).forest) (inode_of desc.kind))
            (pipes_at self.old (H.view host.now).pipes) (with_opened self.old.descriptors pid fd desc cloexec))
            (at self.old tree.old (H.view host.now)) (at self.new tree.new (H.view host.now))
            result (H.count host.now) (H.count host.now) }
    {
        hold(host, tree, desc.kind.inode())?;
        self.descriptors.enter(pid, fd, desc, cloexec)?;
        Ok(())
    }

    // Frees a descriptor, if it is open.
    fn free_slot<H: Host>(
        &mut self,
        host: &mut H,
        tree: &mut Tree,
        pid: u32,
        fd: u32,
    ) -> Result<(), HostErr>
        requires { IsBacked (at self.old tree.old (H.view host.old)) }
        ensures { HasHolding pid (without_descriptor (holding_at (at self.old tree.old (H.view host.old))) pid fd
            (slot_at self.old.descriptors pid fd))
            (at self.old tree.old (H.view host.old)) (at self.new tree.new (H.view host.new))
            result (H.count host.old) (H.count host.new) }
    {
        let _before = host.faults();
        match self.descriptors.slot(pid, fd) {
            Some(slot) => self.drop_slot(host, tree, pid, fd, slot),
            None => Ok(()),
        }
    }

    // Frees a descriptor, if it is open and its close-on-exec bit is set.
    fn free_marked<H: Host>(
        &mut self,
        host: &mut H,
        tree: &mut Tree,
        pid: u32,
        fd: u32,
    ) -> Result<(), HostErr>
        requires { IsBacked (at self.old tree.old (H.view host.old)) }
        ensures { HasHolding pid (without_cloexec_descriptor
            (holding_at (at self.old tree.old (H.view host.old))) pid fd
            (slot_at self.old.descriptors pid fd))
            (at self.old tree.old (H.view host.old)) (at self.new tree.new (H.view host.new))
            result (H.count host.old) (H.count host.new) }
    {
        let _before = host.faults();
        match self.descriptors.slot(pid, fd) {
            Some(slot) if slot.cloexec => self.drop_slot(host, tree, pid, fd, slot),
            Some(_) | None => Ok(()),
        }
    }

    // Frees an open descriptor.
    fn drop_slot<H: Host>(
        &mut self,
        host: &mut H,
        tree: &mut Tree,
        pid: u32,
        fd: u32,
        slot: Slot,
    ) -> Result<(), HostErr>
        requires backed { IsBacked (at self.old tree.old (H.view host.old)) }
        requires here { slot_at self.old.descriptors pid fd ≡ Some slot }
        ensures { HasHolding pid (without_descriptor (holding_at (at self.old tree.old (H.view host.old))) pid fd
            (Some slot))
            (at self.old tree.old (H.view host.old)) (at self.new tree.new (H.view host.new))
            result (H.count host.old) (H.count host.new) }
    {
        let gone = self.descriptors.clear(pid, fd, slot);
        let last = close_end(&mut self.ends, kind_of(&gone));
        remove_pipe(&mut self.pipes, host, last)?;
        release_node(host, tree, gone)?;
        Ok(())
    }
}

// Holds a node once more, if there is one.
fn hold<H: Host>(host: &H, tree: &mut Tree, inode: Option<u64>) -> Result<(), NoMemory>
    requires stands { Stands tree.old (H.view host.now).forest }
    requires live { IfSome inode (λ n. IsLive (shape_of tree.old (H.view host.now).forest) n) }
    ensures tree { OnOk result (tree_of tree.new (H.view host.now).forest
        ≡ with_hold (tree_of tree.old (H.view host.now).forest) inode) }
    ensures stands { OnOk result (Stands tree.new (H.view host.now).forest) }
{
    match inode {
        Some(n) => tree.hold(host, n),
        None => Ok(()),
    }
}

// Lets the node of a description go that went, if one did.
fn release_node<H: Host>(host: &mut H, tree: &mut Tree, gone: Option<Desc>) -> Result<(), HostErr>
    requires stands { Stands tree.old (H.view host.old).forest }
    requires held { IfSome gone (λ desc. IfSome (inode_of desc.kind)
        (λ n. 0 < holds_of (tree_of tree.old (H.view host.old).forest) n)) }
    ensures tree { OnOk result (tree_of tree.new (H.view host.new).forest
        ≡ tree_without_description (tree_of tree.old (H.view host.old).forest) gone) }
    ensures stands { OnOk result (Stands tree.new (H.view host.new).forest) }
    ensures rest { OnlyForest (H.view host.old) (H.view host.new) }
    ensures cause { HasCause (H.count host.old) (H.count host.new)
        (IsErrOf result HostErr.Failed) }
{
    let _before = host.faults();
    match gone {
        Some(desc) => release(host, tree, desc.kind.inode()),
        None => Ok(()),
    }
}

// Holds a node once less, if there is one.
fn release<H: Host>(host: &mut H, tree: &mut Tree, inode: Option<u64>) -> Result<(), HostErr>
    requires stands { Stands tree.old (H.view host.old).forest }
    requires held { IfSome inode
        (λ n. 0 < holds_of (tree_of tree.old (H.view host.old).forest) n) }
    ensures tree { OnOk result (tree_of tree.new (H.view host.new).forest
        ≡ without_hold (tree_of tree.old (H.view host.old).forest) inode) }
    ensures stands { OnOk result (Stands tree.new (H.view host.new).forest) }
    ensures rest { OnlyForest (H.view host.old) (H.view host.new) }
    ensures cause { HasCause (H.count host.old) (H.count host.new)
        (IsErrOf result HostErr.Failed) }
{
    let _before = host.faults();
    match inode {
        Some(n) => tree.release(host, n),
        None => Ok(()),
    }
}
