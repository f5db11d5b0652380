// The rest of a list whose words count more than the limit. Of each further word matters alone whether a NUL ends it
// before a byte that can't be read, so each byte is looked through once, however many entries lead to it.
ghost use Rattle.std.specs.Prelude.{◌≡◌, None, Some, IfOk, MatchOption, is_ok};
ghost use Rattle.std.specs.List.{list_any};
ghost use Rattle.dt_exec.specs.Arguments.{words_at};
ghost use Rattle.dt_exec.specs.inner.Rest.{entries_at, is_unread};

use super::word_at;
use crate::limits::LIST_ENTRY;
use dt_base::NoMemory;
use dt_space::Space;
use std::alloc::Global;

/// Whether a list can be read to its 0, which is one of `left` entries, with each word that it leads to.
pub fn is_readable(alloc: Global, space: &Space, at: u64, left: u64) -> Result<bool, NoMemory>
    ensures { IfOk result (λ found. found ≡ is_ok (words_at space.now at left)) }
{
    let Some(mut entries) = entries_at(alloc, space, at, left)? else {
        return Ok(false);
    };
    entries.sort_unstable();
    let is_cut = any_unread(space, &entries)?;
    Ok(!is_cut)
}

// The addresses of the words of a list; None where its 0 is none of `left` entries that can be read.
fn entries_at(
    alloc: Global,
    space: &Space,
    at: u64,
    left: u64,
) -> Result<Option<Vec<u64>>, NoMemory>
    ensures { IfOk result (λ found. MatchOption found (entries_at space.now at left ≡ None)
        (λ entries. entries_at space.now at left ≡ Some entries.items)) }
{
    let mut entries = Vec::new(alloc);
    let mut next = at;
    for _index in 0..left {
        let Ok(entry) = space.load8(next) else {
            return Ok(None);
        };
        if entry == 0 {
            return Ok(Some(entries));
        }
        entries.push(entry)?;
        next = next.wrapping_add(LIST_ENTRY);
    }
    Ok(None)
}

// Whether a word at one of these addresses can't be read. Where they rise, each byte is looked through once.
fn any_unread(space: &Space, addresses: &[u64]) -> Result<bool, NoMemory>
    ensures { IfOk result (λ found. found ≡ list_any (is_unread space.now) addresses.now) }
{
    // Words that begin among these bytes end with the NUL of the one that was read last.
    let mut start = 0;
    let mut count = 0;
    for at in addresses {
        if at.wrapping_sub(start) < count {
            continue;
        }
        let Ok(word) = word_at(space, *at)? else {
            return Ok(true);
        };
        start = *at;
        count = word.len() as u64 + 1;
    }
    Ok(false)
}
