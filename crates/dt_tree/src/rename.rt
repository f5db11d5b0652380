// The change of the tree by which a name moves.
ghost use Rattle.std.specs.Prelude.{◌≡◌, OnOk, IsErrOf};
ghost use Rattle.dt_host.specs.declared.error.CallErr.TheVariants.{Host as host_failed};
ghost use Rattle.dt_host.specs.World.{OnlyForest};
ghost use Rattle.dt_host.specs.Cause.{HasCause};
ghost use Rattle.dt_tree.specs.Calls.{IsTreeAnswer, UnlessFailed, KeepsHeld, MayMove, move_name_of};
ghost use Rattle.dt_tree.specs.Changes.{tree_after_rename};
ghost use Rattle.dt_tree.specs.Table.{Stands, shape_of, tree_of};
ghost use Rattle.dt_tree.specs.inner.Moves.{IsMove};

use crate::tree::Tree;
use dt_base::Errno;
use dt_host::{CallErr, Host, HostErr};

impl Tree {
    // Moves the name of the node `n`. The old name goes first, so that there are never more names than before.
    fn shift<H: Host>(
        &mut self,
        host: &mut H,
        from: u64,
        old: &[u8],
        to: u64,
        new: &[u8],
        n: u64,
        stamp: u64,
    ) -> Result<(), HostErr>
        requires stands { Stands self.old (H.view host.old).forest }
        requires may { IsMove (shape_of self.old (H.view host.old).forest) from old.now to new.now n }
        ensures stands { OnOk result (Stands self.new (H.view host.new).forest) }
        ensures tree { OnOk result (tree_of self.new (H.view host.new).forest
            ≡ tree_after_rename (tree_of self.old (H.view host.old).forest) from old.now to new.now stamp) }
        ensures held { OnOk result (KeepsHeld (tree_of self.old (H.view host.old).forest)
            (tree_of self.new (H.view host.new).forest)) }
        ensures rest { OnlyForest (H.view host.old) (H.view host.new) }
        ensures cause { HasCause (H.count host.old) (H.count host.new)
            (IsErrOf result HostErr.Failed) }
    {
        let replaced = self.find(host, to, new)?;
        self.unbind(host, from, old, n)?;
        self.unbind_found(host, to, new, replaced)?;
        self.bind(host, to, new, n)?;
        self.stamp(from, stamp);
        self.stamp(to, stamp);
        self.sweep_found(host, replaced)
    }

    /// Gives a node another name (rename(2)), in the place of what may have that name, which goes as if it were
    /// unlinked. Both directories get the stamp. ENOENT where the new one is removed.
    pub fn move_name<H: Host>(
        &mut self,
        host: &mut H,
        from: u64,
        old: &[u8],
        to: u64,
        new: &[u8],
        stamp: u64,
    ) -> Result<(), CallErr>
        requires stands { Stands self.old (H.view host.old).forest }
        requires may { MayMove (shape_of self.old (H.view host.old).forest) from old.now to new.now }
        ensures done { IsTreeAnswer result (tree_of self.new (H.view host.new).forest)
            (move_name_of (tree_of self.old (H.view host.old).forest) from old.now to new.now stamp) }
        ensures stands { UnlessFailed result (Stands self.new (H.view host.new).forest) }
        ensures held { UnlessFailed result (KeepsHeld (tree_of self.old (H.view host.old).forest)
            (tree_of self.new (H.view host.new).forest)) }
        ensures rest { OnlyForest (H.view host.old) (H.view host.new) }
        ensures cause { HasCause (H.count host.old) (H.count host.new)
            (IsErrOf result (host_failed HostErr.Failed)) }
    {
        let _before = host.faults();
        if self.is_removed(to) {
            return Err(CallErr::Errno(Errno::NoEnt));
        }
        let Some(n) = self.find(host, from, old)? else {
            unreachable!()
        };
        Ok(self.shift(host, from, old, to, new, n, stamp)?)
    }
}
