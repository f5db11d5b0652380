// Whole pages, of which each call changes some.
ghost use Rattle.std.specs.Prelude.{◌≡◌};
ghost use Rattle.dt_mcalls.specs.Lengths.{is_page_start, whole_pages, is_past_end};

use dt_base::{PAGE_NUMBERS, PAGE_SIZE};

/// Whether an address is that of a page.
pub fn is_page_start(address: u64) -> bool
    ensures { result ≡ is_page_start address }
{
    address % PAGE_SIZE == 0
}

/// How many whole pages so many bytes take.
pub fn whole_pages(bytes: u64) -> u64
    ensures { result ≡ whole_pages bytes }
{
    bytes.div_ceil(PAGE_SIZE)
}

/// Whether a range of pages ends past all that a process can have.
pub fn is_past_end(first: u64, count: u64) -> bool
    ensures { result ≡ is_past_end first count }
{
    count > PAGE_NUMBERS || first > PAGE_NUMBERS - count
}
