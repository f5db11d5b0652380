// Whether each entry of an index stands in a directory.
ghost use Rattle.std.specs.Prelude.{◌≡◌, ◌||◌, IfOk, OnOk, map, List, ℕ};
ghost use Rattle.std.specs.List.{list_all, list_any};
ghost use Rattle.dt_base.specs.Path.{is_top, parent_of};
ghost use Rattle.dt_image.specs.ImageOf.{is_dir_of_path, has_listed_parent, is_dir_source};
ghost use Rattle.dt_image.specs.inner.IndexView.{entry_in, source_in, has_dir};

use crate::index::{EntryRef, SourceRef};
use dt_base::{NoMemory, is_top};
use std::alloc::Global;
use std::collections::BTreeSet;

/// Whether each entry stands in the root or in a directory that is listed. Each parent is looked for in a set, not
/// among all entries.
pub fn have_parents(alloc: Global, entries: &[EntryRef<'_>]) -> Result<bool, NoMemory>
    ensures { IfOk result (λ all.
        all ≡ list_all (λ entry. has_listed_parent (map entry_in entries.now) (entry_in entry)) entries.now) }
{
    let dirs = dirs_of(alloc, entries)?;
    for entry in entries {
        if !has_parent(&dirs, *entry) {
            return Ok(false);
        }
    }
    Ok(true)
}

// The paths of the directories.
fn dirs_of<'v>(alloc: Global, entries: &[EntryRef<'v>]) -> Result<BTreeSet<&'v [u8]>, NoMemory>
    ensures { IfOk result (λ dirs.
        (path : List ℕ) → has_dir path dirs ≡ list_any (is_dir_of_path path) (map entry_in entries.now)) }
{
    let mut dirs = BTreeSet::new(alloc);
    for entry in entries {
        add_dir(&mut dirs, *entry)?;
    }
    Ok(dirs)
}

// Adds the path of an entry that is a directory.
fn add_dir<'v>(dirs: &mut BTreeSet<&'v [u8]>, entry: EntryRef<'v>) -> Result<(), NoMemory>
    ensures { OnOk result ((path : List ℕ) →
        has_dir path dirs.new ≡ (has_dir path dirs.old || is_dir_of_path path (entry_in entry.entry))) }
{
    if is_dir_source(entry.source) {
        dirs.insert(entry.path.as_bytes())?;
    }
    Ok(())
}

fn is_dir_source(source: SourceRef<'_>) -> bool
    ensures { result ≡ is_dir_source (source_in source.entry) }
{
    match source {
        SourceRef::Dir(_) => true,
        SourceRef::File(_, _) | SourceRef::Link(_) | SourceRef::Dev(_, _) => false,
    }
}

fn has_parent(dirs: &BTreeSet<&[u8]>, entry: EntryRef<'_>) -> bool
    ensures { result ≡ (is_top entry.entry.path.now || has_dir (parent_of entry.entry.path.now) dirs.now) }
{
    let path = entry.path.as_bytes();
    is_top(path) || dirs.contains(parent_of(path))
}

// A path without its last name and the `/` before that.
fn parent_of(path: &[u8]) -> &[u8]
    ensures { result.now ≡ parent_of path.now }
{
    let mut rest = path;
    while let Some((last, before)) = rest.split_last() {
        if *last == b'/' {
            return before;
        }
        rest = before;
    }
    rest
}
