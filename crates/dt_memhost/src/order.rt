// The order in which words name the entries of a directory.
ghost use Rattle.std.specs.Prelude.{◌≡◌, ◌%◌, ◌<◌, [], ◌∷◌, length, take, drop, remove, IfOk, OnOk, OnErr};
ghost use Rattle.dt_memhost.specs.Order.{drawn_order};
ghost use Rattle.dt_memhost.specs.Script.{after_draw, after_draws, coming_word, words_of};
ghost use Rattle.dt_memhost.specs.inner.EntryTree.{entries, IsCounted};

use crate::entry_tree::EntryTree;
use crate::script::Script;
use dt_base::NoMemory;
use dt_host::HostEntry;
use std::alloc::Global;

/// Entries in the order that words choose, one word for each. All memory is taken before the first
/// word. The time is n log n.
pub(crate) fn arrange(
    alloc: Global,
    found: Vec<HostEntry>,
    script: &mut Script,
) -> Result<Vec<HostEntry>, NoMemory>
    ensures order { IfOk result (λ arranged. arranged.items
        ≡ drawn_order (words_of (length found.items) script.old) found.items) }
    ensures after { OnOk result (script.new ≡ after_draws (length found.items) script.old) }
    ensures err { OnErr result (script.new ≡ script.old) }
{
    let count = found.len();
    let mut arranged = Vec::with_capacity(alloc, count)?;
    let mut left = EntryTree::new(alloc, found)?;
    for done in 0..count {
        let entry = pick(&mut left, count - done, script);
        arranged.push(entry)?;
    }
    Ok(arranged)
}

// Takes the entry that the next word chooses out of those that are left.
fn pick(left: &mut EntryTree, count: usize, script: &mut Script) -> HostEntry
    requires counted { IsCounted left.old }
    requires count { length (entries left.old) ≡ count }
    requires some { 0 < count }
    ensures chosen { result ∷ []
        ≡ take 1 (drop (coming_word script.old % count) (entries left.old)) }
    ensures left { entries left.new ≡ remove (entries left.old) (coming_word script.old % count) }
    ensures counted { IsCounted left.new }
    ensures after { script.new ≡ after_draw script.old }
{
    let at = script.index(count);
    left.take(at)
}
