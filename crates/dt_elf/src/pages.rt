// The pages of an executable's segments.
ghost use Rattle.std.specs.Prelude.{◌≡◌, ◌+◌, ◌*◌, ◌≤◌, ◌<◌, ℕ, length, nat_lt, slice_index, IfOk};
ghost use Rattle.dt_base.specs.Bytes.{with_bytes_at};
ghost use Rattle.dt_elf.specs.Placed.{IsPlaced, ArePlaced, EndBelowMappings};
ghost use Rattle.dt_elf.specs.SegmentPages.{has_page, is_segment_page, page_numbers, rights_with, page_rights};
ghost use Rattle.dt_elf.specs.SegmentPages.{segment_byte};
ghost use Rattle.dt_elf.specs.SegmentPages.{loaded_bytes, segment_pages};
ghost use Rattle.dt_elf.specs.inner.Next.{IsNext};

use crate::elf::Segment;
use crate::layout::SEGMENT_PAGES_END;
use dt_base::{MMAP_START, NoMemory, PAGE_LIMIT, PAGE_SIZE};
use dt_space::Space;
use std::alloc::Global;

/// The pages that the segments touch, each with the rights of all that do, and zeros outside of their file parts.
pub(crate) fn load(alloc: Global, segments: &[Segment], bytes: &[u8]) -> Result<Space, NoMemory>
    requires placed { ArePlaced bytes.now segments.now }
    requires few { length (page_numbers segments.now) ≤ PAGE_LIMIT }
    ensures { IfOk result (λ space. space ≡ segment_pages segments.now bytes.now) }
{
    let mut space = Space::new(alloc);
    let mut number = next_page(segments, 0);
    while number < SEGMENT_PAGES_END {
        let page = page_bytes(segments, bytes, number);
        space = space.with_pages(alloc, number, 1, page_rights(segments, number), &page)?;
        number = next_page(segments, number + 1);
    }
    Ok(space)
}

/// Whether the segments touch more pages than these.
pub(crate) fn touch_more_than(pages: u64, segments: &[Segment]) -> bool
    requires { EndBelowMappings segments.now }
    ensures { result ≡ nat_lt pages (length (page_numbers segments.now)) }
{
    let mut left = pages;
    let mut number = next_page(segments, 0);
    while number < SEGMENT_PAGES_END {
        if left == 0 {
            return true;
        }
        left -= 1;
        number = next_page(segments, number + 1);
    }
    false
}

// The number of the first page from this one on that some segment touches, or the end of the numbers.
fn next_page(segments: &[Segment], from: u64) -> u64
    requires low { EndBelowMappings segments.now }
    requires within { from ≤ SEGMENT_PAGES_END }
    ensures { IsNext (is_segment_page segments.now) from result }
{
    let mut index = segments.len();
    let mut next = SEGMENT_PAGES_END;
    while 0 < index {
        index -= 1;
        next = next.min(segments[index].next_page(from));
    }
    next
}

// The rights of all segments that touch a page.
fn page_rights(segments: &[Segment], number: u64) -> u8
    requires low { EndBelowMappings segments.now }
    requires within { number < SEGMENT_PAGES_END }
    ensures { result ≡ page_rights segments.now number }
{
    let mut index = segments.len();
    let mut rights = 0;
    while 0 < index {
        index -= 1;
        rights = segments[index].rights_with(number, rights);
    }
    rights
}

fn page_bytes(segments: &[Segment], bytes: &[u8], number: u64) -> [u8; 4096]
    requires placed { ArePlaced bytes.now segments.now }
    requires within { number < SEGMENT_PAGES_END }
    ensures { result ≡ loaded_bytes segments.now bytes.now (PAGE_SIZE * number) PAGE_SIZE }
{
    let mut page = [0; 4096];
    let mut index = segments.len();
    while 0 < index {
        index -= 1;
        segments[index].put_in(bytes, PAGE_SIZE * number, &mut page);
    }
    page
}

impl Segment {
    // The number of the first page from this one on that the segment touches, or the end of the numbers.
    fn next_page(&self, from: u64) -> u64
        requires low { self.now.vaddr + self.now.memsz ≤ MMAP_START }
        requires within { from ≤ SEGMENT_PAGES_END }
        ensures { IsNext (λ number. has_page number self.now) from result }
    {
        let next = from.max(self.vaddr / PAGE_SIZE);
        if PAGE_SIZE * next < self.vaddr + self.memsz {
            next
        } else {
            SEGMENT_PAGES_END
        }
    }

    // The rights of a page with its own, where it touches the page.
    fn rights_with(&self, number: u64, others: u8) -> u8
        requires low { self.now.vaddr + self.now.memsz ≤ MMAP_START }
        requires within { number < SEGMENT_PAGES_END }
        ensures { result ≡ rights_with number self.now others }
    {
        if self.touches(number) {
            others | self.rights
        } else {
            others
        }
    }

    // Whether it has memory in a page.
    fn touches(&self, number: u64) -> bool
        requires low { self.now.vaddr + self.now.memsz ≤ MMAP_START }
        requires within { number < SEGMENT_PAGES_END }
        ensures { result ≡ has_page number self.now }
    {
        self.vaddr < PAGE_SIZE * (number + 1) && PAGE_SIZE * number < self.vaddr + self.memsz
    }

    // The address that follows its file part.
    fn file_part_end(&self) -> u64
        requires { self.now.vaddr + self.now.filesz ≤ MMAP_START }
        ensures { result ≡ self.now.vaddr + self.now.filesz }
    {
        self.vaddr + self.filesz
    }

    // Puts its file part's bytes into the page that starts at an address.
    fn put_in(&self, bytes: &[u8], start: u64, page: &mut [u8; 4096])
        requires placed { IsPlaced bytes.now self.now }
        requires within { start < MMAP_START }
        ensures { (i : ℕ) → i < PAGE_SIZE →
            slice_index page.new i ≡ segment_byte self.now bytes.now (start + i) (slice_index page.old i) }
    {
        let low = self.vaddr.max(start);
        let high = self.file_part_end().min(start + PAGE_SIZE);
        if low < high {
            let from = (self.offset + (low - self.vaddr)) as usize;
            let count = (high - low) as usize;
            overwrite(page, (low - start) as usize, &bytes[from..from + count]);
        }
    }
}

// Writes bytes into a page from an offset on.
fn overwrite(page: &mut [u8; 4096], offset: usize, bytes: &[u8])
    requires { offset + length bytes.now ≤ PAGE_SIZE }
    ensures { page.new ≡ with_bytes_at page.old offset bytes.now }
{
    page[offset..offset + bytes.len()].copy_from_slice(bytes);
}
