// What is kept of nodes, by inode. A change at one inode leaves the others.
ghost use Rattle.std.specs.Prelude.{◌≡◌, ◌≢◌, ℕ, Some, IsSome};
ghost use Rattle.std.specs.Ordering.{nat_cmp};
ghost use Rattle.std.specs.BTreeMap as tree;

use crate::inode::Inode;
use std::collections::BTreeMap;

/// What is kept of a node.
pub(crate) fn find(inodes: &BTreeMap<u64, Inode>, n: u64) -> Option<Inode>
    ensures { result ≡ tree.get nat_cmp inodes.now n }
{
    inodes.get(&n).copied()
}

/// Keeps something else of a node.
pub(crate) fn set(inodes: &mut BTreeMap<u64, Inode>, n: u64, inode: Inode)
    requires { IsSome (tree.get nat_cmp inodes.old n) }
    ensures here { tree.get nat_cmp inodes.new n ≡ Some inode }
    ensures others { (q : ℕ) → q ≢ n
        → tree.get nat_cmp inodes.new q ≡ tree.get nat_cmp inodes.old q }
{
    match inodes.get_mut(&n) {
        Some(kept) => *kept = inode,
        None => {}
    }
}
