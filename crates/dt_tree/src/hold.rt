// Modes and holds.
ghost use Rattle.std.specs.Prelude.{◌≡◌, ◌<◌, ◌≤◌, false, OnOk, IsErrOf};
ghost use Rattle.dt_base.specs.declared.limits.TheConstants.{MODE_LIMIT};
ghost use Rattle.dt_host.specs.Cause.{HasCause};
ghost use Rattle.dt_host.specs.World.{Forest, IsLive, OnlyForest};
ghost use Rattle.dt_tree.specs.Changes.{tree_after_chmod, tree_after_hold, tree_after_release};
ghost use Rattle.dt_tree.specs.Shape.{is_link};
ghost use Rattle.dt_tree.specs.FileTree.{holds_of};
ghost use Rattle.dt_tree.specs.Calls.{KeepsHeld};
ghost use Rattle.dt_tree.specs.Table.{Stands, shape_of, tree_of};

use crate::inode::Inode;
use crate::tree::Tree;
use dt_base::NoMemory;
use dt_host::{Host, HostErr};

impl Tree {
    /// Gives a file or a directory another mode (chmod(2)).
    pub fn set_mode<H: Host>(&mut self, host: &H, vino: u64, mode: u32)
        requires stands { Stands self.old (H.view host.now).forest }
        requires live { IsLive (shape_of self.old (H.view host.now).forest) vino }
        requires no_link { is_link (shape_of self.old (H.view host.now).forest) vino ≡ false }
        requires mode { mode ≤ MODE_LIMIT }
        ensures tree { tree_of self.new (H.view host.now).forest
            ≡ tree_after_chmod (tree_of self.old (H.view host.now).forest) vino mode }
        ensures stands { Stands self.new (H.view host.now).forest }
        ensures held { KeepsHeld (tree_of self.old (H.view host.now).forest)
            (tree_of self.new (H.view host.now).forest) }
    {
        let inode = self.inode(vino);
        self.set(vino, Inode { mode, ..inode });
    }

    /// Holds a node once more, so that it stays when its last name goes. Want of memory is the answer where it has as
    /// many holds as can be counted.
    pub fn hold<H: Host>(&mut self, host: &H, vino: u64) -> Result<(), NoMemory>
        requires stands { Stands self.old (H.view host.now).forest }
        requires live { IsLive (shape_of self.old (H.view host.now).forest) vino }
        ensures tree { OnOk result (tree_of self.new (H.view host.now).forest
            ≡ tree_after_hold (tree_of self.old (H.view host.now).forest) vino) }
        ensures stands { OnOk result (Stands self.new (H.view host.now).forest) }
    {
        let inode = self.inode(vino);
        if inode.holds == u64::MAX {
            return Err(NoMemory);
        }
        self.set(
            vino,
            Inode {
                holds: inode.holds + 1,
                ..inode
            },
        );
        Ok(())
    }

    /// Gives a hold up. A node without names goes with its last hold.
    pub fn release<H: Host>(&mut self, host: &mut H, vino: u64) -> Result<(), HostErr>
        requires stands { Stands self.old (H.view host.old).forest }
        requires held { 0 < holds_of (tree_of self.old (H.view host.old).forest) vino }
        ensures tree { OnOk result (tree_of self.new (H.view host.new).forest
            ≡ tree_after_release (tree_of self.old (H.view host.old).forest) vino) }
        ensures stands { OnOk result (Stands self.new (H.view host.new).forest) }
        ensures rest { OnlyForest (H.view host.old) (H.view host.new) }
        ensures cause { HasCause (H.count host.old) (H.count host.new)
            (IsErrOf result HostErr.Failed) }
    {
        let inode = self.inode(vino);
        self.set(
            vino,
            Inode {
                holds: inode.holds - 1,
                ..inode
            },
        );
        self.sweep(host, vino)
    }
}
