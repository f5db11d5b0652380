// New nodes and names.
ghost use Rattle.std.specs.Prelude.{◌≡◌, false, IfOk, OnOk, IsErrOf, IsTrue};
ghost use Rattle.dt_base.specs.Image.{is_good_what};
ghost use Rattle.dt_host.specs.declared.error.CallErr.TheVariants.{Host as host_failed};
ghost use Rattle.dt_host.specs.World.{OnlyForest};
ghost use Rattle.dt_host.specs.Cause.{HasCause};
ghost use Rattle.dt_tree.specs.Calls.{IsTreeAnswer, UnlessFailed, KeepsHeld, IsNewName, MayAdd, make_node_of};
ghost use Rattle.dt_tree.specs.Calls.{add_name_of};
ghost use Rattle.dt_tree.specs.Changes.{tree_after_make, tree_after_link};
ghost use Rattle.dt_tree.specs.Shape.{is_removed};
ghost use Rattle.dt_tree.specs.Table.{Stands, shape_of, tree_of};
ghost use Rattle.dt_tree.specs.inner.Created.{MayCreate};

use crate::limits::NODE_LIMIT;
use crate::tree::Tree;
use dt_base::{Errno, What};
use dt_host::{CallErr, Host, HostErr};

impl Tree {
    /// Makes a directory, a link, a file or a device under a new name, and answers its inode. It and the directory get the stamp.
    /// ENOENT where the directory is removed; then ENOSPC where the tree has 4,096 nodes.
    pub fn make_node<H: Host>(
        &mut self,
        host: &mut H,
        dir: u64,
        name: &[u8],
        what: &What,
        mode: u32,
        stamp: u64,
    ) -> Result<u64, CallErr>
        requires stands { Stands self.old (H.view host.old).forest }
        requires new { IsNewName (tree_of self.old (H.view host.old).forest) dir name.now }
        requires good { IsTrue (is_good_what self.old.version what.now mode) }
        ensures done { IsTreeAnswer result (tree_of self.new (H.view host.new).forest)
            (make_node_of (tree_of self.old (H.view host.old).forest) dir name.now what.now mode stamp) }
        ensures stands { UnlessFailed result (Stands self.new (H.view host.new).forest) }
        ensures held { UnlessFailed result (KeepsHeld (tree_of self.old (H.view host.old).forest)
            (tree_of self.new (H.view host.new).forest)) }
        ensures rest { OnlyForest (H.view host.old) (H.view host.new) }
        ensures cause { HasCause (H.count host.old) (H.count host.new)
            (IsErrOf result (host_failed HostErr.Failed)) }
    {
        let _before = host.faults();
        if self.is_removed(dir) {
            return Err(CallErr::Errno(Errno::NoEnt));
        }
        if self.nodes() >= NODE_LIMIT {
            return Err(CallErr::Errno(Errno::NoSpc));
        }
        Ok(self.create_stamped(host, dir, name, what, mode, stamp)?)
    }

    /// Gives a file or a link one name more (link(2)). The directory gets the stamp. ENOENT where it is removed.
    pub fn add_name<H: Host>(
        &mut self,
        host: &mut H,
        dir: u64,
        name: &[u8],
        vino: u64,
        stamp: u64,
    ) -> Result<(), CallErr>
        requires stands { Stands self.old (H.view host.old).forest }
        requires may { MayAdd (tree_of self.old (H.view host.old).forest) dir name.now vino }
        ensures done { IsTreeAnswer result (tree_of self.new (H.view host.new).forest)
            (add_name_of (tree_of self.old (H.view host.old).forest) dir name.now vino stamp) }
        ensures stands { UnlessFailed result (Stands self.new (H.view host.new).forest) }
        ensures held { UnlessFailed result (KeepsHeld (tree_of self.old (H.view host.old).forest)
            (tree_of self.new (H.view host.new).forest)) }
        ensures rest { OnlyForest (H.view host.old) (H.view host.new) }
        ensures cause { HasCause (H.count host.old) (H.count host.new)
            (IsErrOf result (host_failed HostErr.Failed)) }
    {
        let _before = host.faults();
        if self.is_removed(dir) {
            return Err(CallErr::Errno(Errno::NoEnt));
        }
        Ok(self.link(host, dir, name, vino, stamp)?)
    }

    // Makes a node under a name. It and its directory get the stamp.
    fn create_stamped<H: Host>(
        &mut self,
        host: &mut H,
        dir: u64,
        name: &[u8],
        what: &What,
        mode: u32,
        stamp: u64,
    ) -> Result<u64, HostErr>
        requires stands { Stands self.old (H.view host.old).forest }
        requires may { MayCreate (tree_of self.old (H.view host.old).forest) dir name.now what.now mode }
        ensures number { IfOk result (λ n. n ≡ self.old.next) }
        ensures stands { OnOk result (Stands self.new (H.view host.new).forest) }
        ensures tree { OnOk result (tree_of self.new (H.view host.new).forest
            ≡ tree_after_make (tree_of self.old (H.view host.old).forest) dir name.now what.now mode stamp) }
        ensures held { OnOk result (KeepsHeld (tree_of self.old (H.view host.old).forest)
            (tree_of self.new (H.view host.new).forest)) }
        ensures rest { OnlyForest (H.view host.old) (H.view host.new) }
        ensures cause { HasCause (H.count host.old) (H.count host.new)
            (IsErrOf result HostErr.Failed) }
    {
        let n = self.create(host, dir, name, what, mode, stamp)?;
        self.stamp(dir, stamp);
        Ok(n)
    }

    // Gives a node that is no directory one name more, in a directory that isn't removed.
    fn link<H: Host>(
        &mut self,
        host: &mut H,
        dir: u64,
        name: &[u8],
        n: u64,
        stamp: u64,
    ) -> Result<(), HostErr>
        requires stands { Stands self.old (H.view host.old).forest }
        requires may { MayAdd (tree_of self.old (H.view host.old).forest) dir name.now n }
        requires there { is_removed (shape_of self.old (H.view host.old).forest) dir ≡ false }
        ensures stands { OnOk result (Stands self.new (H.view host.new).forest) }
        ensures tree { OnOk result (tree_of self.new (H.view host.new).forest
            ≡ tree_after_link (tree_of self.old (H.view host.old).forest) dir name.now n stamp) }
        ensures held { OnOk result (KeepsHeld (tree_of self.old (H.view host.old).forest)
            (tree_of self.new (H.view host.new).forest)) }
        ensures rest { OnlyForest (H.view host.old) (H.view host.new) }
        ensures cause { HasCause (H.count host.old) (H.count host.new)
            (IsErrOf result HostErr.Failed) }
    {
        self.bind(host, dir, name, n)?;
        self.stamp(dir, stamp);
        Ok(())
    }
}
