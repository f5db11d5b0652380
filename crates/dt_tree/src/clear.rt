// The end of a tree: its host is left with a root without entries.
ghost use Rattle.std.specs.Prelude.{◌≡◌, ◌≢◌, ◌+◌, map, IfSome, OnOk, IsErrOf};
ghost use Rattle.std.specs.FinMap.{get};
ghost use Rattle.dt_host.specs.Cause.{HasCause};
ghost use Rattle.dt_host.specs.Legal.{pair_of};
ghost use Rattle.dt_host.specs.World.{IsDir, IsBare, OnlyForest, empty_forest};
ghost use Rattle.dt_tree.specs.declared.limits.TheConstants.{ROOT as THE_ROOT};
ghost use Rattle.dt_tree.specs.Table.{Stands};
ghost use Rattle.dt_tree.specs.inner.Emptied.{AreEntries, Thins, HasKinds, IsEmptied, IsForgotten};

use crate::inode::Kind;
use crate::limits::ROOT;
use crate::tree::Tree;
use dt_host::{Host, HostEntry, HostErr, sorted_names};

// Takes all entries out of a directory of the host.
fn empty_dir<H: Host>(host: &mut H, dir: u64) -> Result<(), HostErr>
    requires { IsDir (H.view host.old).forest dir }
    ensures thins { OnOk result (Thins (H.view host.old).forest (H.view host.new).forest) }
    ensures bare { OnOk result (IsBare (H.view host.new).forest dir) }
    ensures rest { OnlyForest (H.view host.old) (H.view host.new) }
    ensures cause { HasCause (H.count host.old) (H.count host.new) (IsErrOf result HostErr.Failed) }
{
    let entries = sorted_names(host, dir)?;
    unbind_all(host, dir, &entries)
}

// Takes these entries out of a directory of the host, which has no others.
fn unbind_all<H: Host>(host: &mut H, dir: u64, entries: &[HostEntry]) -> Result<(), HostErr>
    requires { AreEntries (H.view host.old).forest dir (map pair_of entries.now) }
    ensures thins { OnOk result (Thins (H.view host.old).forest (H.view host.new).forest) }
    ensures bare { OnOk result (IsBare (H.view host.new).forest dir) }
    ensures rest { OnlyForest (H.view host.old) (H.view host.new) }
    ensures cause { HasCause (H.count host.old) (H.count host.new) (IsErrOf result HostErr.Failed) }
{
    let _before = host.faults();
    for entry in entries {
        host.unbind(dir, entry.name.as_slice())?;
    }
    Ok(())
}

impl Tree {
    /// Lets all nodes of the host go but its root, which has no entries then. What still holds a node doesn't count.
    pub fn clear<H: Host>(self, host: &mut H) -> Result<(), HostErr>
        requires { Stands self (H.view host.old).forest }
        ensures cleared { OnOk result ((H.view host.new).forest
            ≡ empty_forest (H.view host.old).forest.root) }
        ensures rest { OnlyForest (H.view host.old) (H.view host.new) }
        ensures cause { HasCause (H.count host.old) (H.count host.new)
            (IsErrOf result HostErr.Failed) }
    {
        self.empty_dirs(host)?;
        self.forget_all(host)
    }

    // Takes all names away.
    fn empty_dirs<H: Host>(&self, host: &mut H) -> Result<(), HostErr>
        requires { Stands self.now (H.view host.old).forest }
        ensures emptied { OnOk result (IsEmptied self.now (H.view host.new).forest) }
        ensures root { OnOk result ((H.view host.new).forest.root ≡ (H.view host.old).forest.root) }
        ensures rest { OnlyForest (H.view host.old) (H.view host.new) }
        ensures cause { HasCause (H.count host.old) (H.count host.new)
            (IsErrOf result HostErr.Failed) }
    {
        let _before = host.faults();
        for n in ROOT..self.next_inode() {
            self.empty_at(host, n)?;
        }
        Ok(())
    }

    // Takes all entries out of a node, if it is there and a directory.
    fn empty_at<H: Host>(&self, host: &mut H, n: u64) -> Result<(), HostErr>
        requires { HasKinds self.now (H.view host.old).forest }
        ensures thins { OnOk result (Thins (H.view host.old).forest (H.view host.new).forest) }
        ensures bare { OnOk result
            (IfSome (get self.now.inodes n) (λ inode. IsBare (H.view host.new).forest inode.real)) }
        ensures rest { OnlyForest (H.view host.old) (H.view host.new) }
        ensures cause { HasCause (H.count host.old) (H.count host.new)
            (IsErrOf result HostErr.Failed) }
    {
        let _before = host.faults();
        match self.found(n) {
            None => Ok(()),
            Some(inode) => match inode.kind {
                Kind::Dir => empty_dir(host, inode.real),
                Kind::File | Kind::Link | Kind::Device(_) => Ok(()),
            },
        }
    }

    // Lets all nodes of the host go but the root, where none has an entry.
    fn forget_all<H: Host>(&self, host: &mut H) -> Result<(), HostErr>
        requires { IsEmptied self.now (H.view host.old).forest }
        ensures cleared { OnOk result ((H.view host.new).forest
            ≡ empty_forest (H.view host.old).forest.root) }
        ensures rest { OnlyForest (H.view host.old) (H.view host.new) }
        ensures cause { HasCause (H.count host.old) (H.count host.new)
            (IsErrOf result HostErr.Failed) }
    {
        let _before = host.faults();
        for n in ROOT + 1..self.next_inode() {
            self.forget_at(host, n)?;
        }
        Ok(())
    }

    // Lets a node of the host go that is not the root, if it is there, where none has an entry.
    fn forget_at<H: Host>(&self, host: &mut H, n: u64) -> Result<(), HostErr>
        requires forgotten { IsForgotten self.now n (H.view host.old).forest }
        requires low { n ≢ THE_ROOT }
        ensures forgotten { OnOk result (IsForgotten self.now (n + 1) (H.view host.new).forest) }
        ensures root { OnOk result ((H.view host.new).forest.root ≡ (H.view host.old).forest.root) }
        ensures rest { OnlyForest (H.view host.old) (H.view host.new) }
        ensures cause { HasCause (H.count host.old) (H.count host.new)
            (IsErrOf result HostErr.Failed) }
    {
        let _before = host.faults();
        match self.found(n) {
            None => Ok(()),
            Some(inode) => host.forget(inode.real),
        }
    }
}
