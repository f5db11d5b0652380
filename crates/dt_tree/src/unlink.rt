// The change of the tree by which a name goes.
ghost use Rattle.std.specs.Prelude.{◌≡◌, true, IfSome, OnOk, IsErrOf};
ghost use Rattle.dt_host.specs.declared.error.CallErr.TheVariants.{Host as host_failed};
ghost use Rattle.dt_host.specs.Cause.{HasCause};
ghost use Rattle.dt_tree.specs.Calls.{IsTreeAnswer, UnlessFailed, KeepsHeld, MayDrop, drop_name_of};
ghost use Rattle.dt_host.specs.World.{IsDir, entry, OnlyForest};
ghost use Rattle.dt_tree.specs.Changes.{tree_after_unlink};
ghost use Rattle.dt_tree.specs.Shape.{is_bare};
ghost use Rattle.dt_tree.specs.Table.{Stands, shape_of, tree_of};

use crate::tree::Tree;
use dt_base::Errno;
use dt_host::{CallErr, Host, HostErr};

impl Tree {
    /// Takes a name away (unlink(2), rmdir(2)), and its node with it if that was its last name and nothing holds it.
    /// The directory gets the stamp. ENOENT where it is removed.
    pub fn drop_name<H: Host>(
        &mut self,
        host: &mut H,
        dir: u64,
        name: &[u8],
        stamp: u64,
    ) -> Result<(), CallErr>
        requires stands { Stands self.old (H.view host.old).forest }
        requires may { MayDrop (shape_of self.old (H.view host.old).forest) dir name.now }
        ensures done { IsTreeAnswer result (tree_of self.new (H.view host.new).forest)
            (drop_name_of (tree_of self.old (H.view host.old).forest) dir name.now stamp) }
        ensures stands { UnlessFailed result (Stands self.new (H.view host.new).forest) }
        ensures held { UnlessFailed result (KeepsHeld (tree_of self.old (H.view host.old).forest)
            (tree_of self.new (H.view host.new).forest)) }
        ensures rest { OnlyForest (H.view host.old) (H.view host.new) }
        ensures cause { HasCause (H.count host.old) (H.count host.new)
            (IsErrOf result (host_failed HostErr.Failed)) }
    {
        let _before = host.faults();
        if self.is_removed(dir) {
            return Err(CallErr::Errno(Errno::NoEnt));
        }
        let found = self.find(host, dir, name)?;
        Ok(self.unlink(host, dir, name, found, stamp)?)
    }

    // Takes away the name of what a directory has under it.
    fn unlink<H: Host>(
        &mut self,
        host: &mut H,
        dir: u64,
        name: &[u8],
        found: Option<u64>,
        stamp: u64,
    ) -> Result<(), HostErr>
        requires stands { Stands self.old (H.view host.old).forest }
        requires directory { IsDir (shape_of self.old (H.view host.old).forest) dir }
        requires found { found ≡ entry (shape_of self.old (H.view host.old).forest) dir name.now }
        requires bare { IfSome found (λ n. IsDir (shape_of self.old (H.view host.old).forest) n
            → is_bare (shape_of self.old (H.view host.old).forest) n ≡ true) }
        ensures stands { OnOk result (Stands self.new (H.view host.new).forest) }
        ensures tree { OnOk result (tree_of self.new (H.view host.new).forest
            ≡ tree_after_unlink (tree_of self.old (H.view host.old).forest) dir name.now stamp) }
        ensures held { OnOk result (KeepsHeld (tree_of self.old (H.view host.old).forest)
            (tree_of self.new (H.view host.new).forest)) }
        ensures rest { OnlyForest (H.view host.old) (H.view host.new) }
        ensures cause { HasCause (H.count host.old) (H.count host.new)
            (IsErrOf result HostErr.Failed) }
    {
        self.unbind_found(host, dir, name, found)?;
        self.stamp(dir, stamp);
        self.sweep_found(host, found)
    }
}
