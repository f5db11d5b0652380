// The entries of a directory that are left, in a tree. One is taken from any index in log n steps.
ghost use Rattle.std.specs.Prelude.{◌≡◌, ◌-◌, ◌<◌, ◌≤◌, [], ◌∷◌, length, take, drop, remove, IfOk, OnOk};
ghost use Rattle.std.specs.Option.{option_to_list};
ghost use Rattle.dt_memhost.specs.inner.EntryTree.{entries, IsCounted, IsLeaf};

use dt_base::NoMemory;
use dt_host::HostEntry;
use std::alloc::Global;
use std::mem;

/// Entries in the leaves of a tree.
#[derive(Drop)]
pub(crate) enum EntryTree {
    Empty,
    Leaf(HostEntry),
    // The number counts the entries of the first branch.
    Fork(Box<EntryTree>, usize, Box<EntryTree>),
}

impl EntryTree {
    /// A tree of these entries.
    pub(crate) fn new(alloc: Global, mut found: Vec<HostEntry>) -> Result<EntryTree, NoMemory>
        ensures entries { IfOk result (λ tree. entries tree ≡ found.items) }
        ensures counted { IfOk result IsCounted }
    {
        let count = found.len();
        EntryTree::of_last(alloc, &mut found, count)
    }

    // A tree of the last entries of a list, so many, which leave it. Its forks halve them.
    fn of_last(
        alloc: Global,
        found: &mut Vec<HostEntry>,
        count: usize,
    ) -> Result<EntryTree, NoMemory>
        requires { count ≤ length found.old.items }
        ensures entries { IfOk result
            (λ tree. entries tree ≡ drop (length found.old.items - count) found.old.items) }
        ensures counted { IfOk result IsCounted }
        ensures rest { OnOk result
            (found.new.items ≡ take (length found.old.items - count) found.old.items) }
    {
        if count == 0 {
            return Ok(EntryTree::Empty);
        }
        if count == 1 {
            return Ok(EntryTree::of_one(found.pop()));
        }
        let half = count / 2;
        let after = EntryTree::of_last(alloc, found, count - half)?;
        let before = EntryTree::of_last(alloc, found, half)?;
        let before = Box::new(alloc, before)?;
        let after = Box::new(alloc, after)?;
        Ok(EntryTree::Fork(before, half, after))
    }

    // A tree of one entry, or of none.
    fn of_one(found: Option<HostEntry>) -> EntryTree
        ensures entries { entries result ≡ option_to_list found }
        ensures counted { IsCounted result }
    {
        match found {
            Some(entry) => EntryTree::Leaf(entry),
            None => EntryTree::Empty,
        }
    }

    /// Takes the entry at an index out.
    pub(crate) fn take(&mut self, at: usize) -> HostEntry
        requires counted { IsCounted self.old }
        requires within { at < length (entries self.old) }
        ensures taken { result ∷ [] ≡ take 1 (drop at (entries self.old)) }
        ensures left { entries self.new ≡ remove (entries self.old) at }
        ensures counted { IsCounted self.new }
    {
        match self {
            EntryTree::Fork(before, count, after) => {
                if at < *count {
                    *count -= 1;
                    before.take(at)
                } else {
                    after.take(at - *count)
                }
            }
            EntryTree::Leaf(_) | EntryTree::Empty => self.take_leaf(),
        }
    }

    // Takes the one entry out.
    fn take_leaf(&mut self) -> HostEntry
        requires leaf { IsLeaf self.old }
        ensures taken { entries self.old ≡ result ∷ [] }
        ensures left { entries self.new ≡ [] }
        ensures counted { IsCounted self.new }
    {
        match mem::replace(self, EntryTree::Empty) {
            EntryTree::Leaf(entry) => entry,
            _ => unreachable!(),
        }
    }
}
