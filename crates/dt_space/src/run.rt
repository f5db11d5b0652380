// Writes that run through several pages.
ghost use Rattle.std.specs.Prelude.{◌≡◌, ◌-◌, ◌<◌, OnOk, OnErr, drop};
ghost use Rattle.dt_space.specs.inner.Run.{page_after_put, run_after_put};

use crate::page::Page;
use dt_base::{NoMemory, PAGE_SIZE};
use std::alloc::Global;

/// Writes the bytes through the pages, from an offset of the first on; at want of memory none of them. Each page's
/// bytes are held before any is written.
#[cycle(runs)]
pub(crate) fn put_run(
    pages: &mut [Page],
    alloc: Global,
    offset: u64,
    bytes: &[u8],
) -> Result<(), NoMemory>
    requires within { offset < PAGE_SIZE }
    ensures put { OnOk result (pages.new ≡ run_after_put pages.old offset bytes.now) }
    ensures kept { OnErr result (pages.new ≡ pages.old) }
{
    if bytes.is_empty() {
        return Ok(());
    }
    match pages.split_first_mut() {
        Some((page, others)) => put_parts(page, others, alloc, offset, bytes),
        None => Ok(()),
    }
}

// Writes the bytes from an offset of a page on, and what that page doesn't take through the others.
#[cycle(runs)]
fn put_parts(
    page: &mut Page,
    others: &mut [Page],
    alloc: Global,
    offset: u64,
    bytes: &[u8],
) -> Result<(), NoMemory>
    requires within { offset < PAGE_SIZE }
    ensures page { OnOk result (page.new ≡ page_after_put page.old offset bytes.now) }
    ensures others { OnOk result (others.new ≡ run_after_put others.old 0 (drop (PAGE_SIZE - offset) bytes.now)) }
    ensures page_kept { OnErr result (page.new ≡ page.old) }
    ensures others_kept { OnErr result (others.new ≡ others.old) }
{
    let offset = offset as usize;
    let (piece, rest) = bytes.split_at((PAGE_SIZE as usize - offset).min(bytes.len()));
    let own = page.own(alloc)?;
    put_run(others, alloc, 0, rest)?;
    own[offset..offset + piece.len()].copy_from_slice(piece);
    Ok(())
}
