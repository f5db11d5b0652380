// A tree at its start.
ghost use Rattle.std.specs.Prelude.{◌≡◌, IfOk};
ghost use Rattle.dt_host.specs.Asks.{Asks};
ghost use Rattle.dt_tree.specs.ImageTree.{IsEmptyRoot, root_tree};
ghost use Rattle.dt_tree.specs.Table.{Stands, tree_of};

use crate::inode::{Inode, Kind};
use crate::limits::ROOT_MODE;
use crate::tree::Tree;
use dt_host::{Host, HostErr};
use std::alloc::Global;

impl Tree {
    /// The tree of a host that has nothing but a root without entries.
    pub fn new<H: Host>(alloc: Global, host: &mut H) -> Result<Tree, HostErr>
        requires { IsEmptyRoot (H.view host.old).forest }
        ensures stands { IfOk result (λ t. Stands t (H.view host.new).forest) }
        ensures tree { IfOk result (λ t. tree_of t (H.view host.new).forest ≡ root_tree) }
        ensures asks { Asks H.view H.count host.old host.new result }
    {
        let real = host.root()?;
        Ok(Tree::with_root(alloc, Inode::new(real, Kind::Dir, ROOT_MODE, 0))?)
    }
}
