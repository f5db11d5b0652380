// The entries of an index in the order of an image.
ghost use Rattle.std.specs.Prelude.{◌≡◌, IfOk, IfSome, map, is_some, not};
ghost use Rattle.std.specs.List.Sorted.{IsStrictlySortedBy};
ghost use Rattle.dt_image.specs.ImageOf.{has_twice, sorted_entries};
ghost use Rattle.dt_image.specs.inner.IndexView.{entry_in, keyed_entry, entry_at, path_cmp};

use crate::index::{EntryRef, SourceRef};
use dt_base::NoMemory;
use std::alloc::Global;
use std::collections::BTreeMap;

/// The entries in byte order of their paths; None where two have one path.
pub fn sorted<'v>(
    alloc: Global,
    entries: &[EntryRef<'v>],
) -> Result<Option<Vec<EntryRef<'v>>>, NoMemory>
    ensures once { IfOk result (λ found. is_some found ≡ not (has_twice (map entry_in entries.now))) }
    ensures sorted { IfOk result (λ found.
        IfSome found (λ order. map entry_in order.items ≡ sorted_entries (map entry_in entries.now))) }
    ensures rising { IfOk result (λ found. IfSome found (λ order. IsStrictlySortedBy path_cmp order.items)) }
{
    match sources_by_path(alloc, entries)? {
        Some(sources) => Ok(Some(in_order(alloc, sources)?)),
        None => Ok(None),
    }
}

// What each entry is made from, by its path; None where two have one path.
fn sources_by_path<'v>(
    alloc: Global,
    entries: &[EntryRef<'v>],
) -> Result<Option<BTreeMap<&'v str, SourceRef<'v>>>, NoMemory>
    ensures once { IfOk result (λ found. is_some found ≡ not (has_twice (map entry_in entries.now))) }
    ensures sorted { IfOk result (λ found.
        IfSome found (λ sources. map keyed_entry sources.entries ≡ sorted_entries (map entry_in entries.now))) }
{
    let mut sources = BTreeMap::new(alloc);
    for entry in entries {
        match sources.insert(entry.path, entry.source)? {
            Some(_) => return Ok(None),
            None => {}
        }
    }
    Ok(Some(sources))
}

fn in_order<'v>(
    alloc: Global,
    sources: BTreeMap<&'v str, SourceRef<'v>>,
) -> Result<Vec<EntryRef<'v>>, NoMemory>
    ensures entries { IfOk result (λ order. order.items ≡ map entry_at sources.entry.entries) }
    ensures rising { IfOk result (λ order. IsStrictlySortedBy path_cmp order.items) }
{
    let entries = sources
        .into_iter()
        .map(|(path, source)| EntryRef { path, source })
        .collect(alloc)?;
    Ok(entries)
}
