// The calls that take the pages of a range away, or give them other rights (munmap(2), mprotect(2)).
ghost use Rattle.std.specs.Prelude.{◌≡◌};
ghost use Rattle.dt_space.specs.Space.{IsSpace};
ghost use Rattle.dt_mcalls.specs.Munmap.{munmap_of};
ghost use Rattle.dt_mcalls.specs.Mprotect.{mprotect_of};

use crate::lengths::{is_page_start, is_past_end, whole_pages};
use dt_base::abi::{PROT_ALL, low_word};
use dt_base::{Answer, Errno, PAGE_SIZE};
use dt_space::Space;

/// munmap(2): takes away the pages of a range that are there. The length is rounded up to whole pages.
#[tactic(auto, unfolding(crate::specs::Munmap::munmap_of))]
pub fn munmap(space: &mut Space, address: u64, len: u64) -> Answer
    ensures called { munmap_of space.old address len ≡ record { pages = space.new; answer = result } }
    ensures sound { IsSpace space.new }
{
    let _sound = space.pages();
    let first = address / PAGE_SIZE;
    let count = whole_pages(len);
    if !is_page_start(address) || len == 0 || is_past_end(first, count) {
        return Answer::Refused(Errno::Inval);
    }
    space.unmap(first, count);
    Answer::Value(0)
}

/// mprotect(2): gives the pages of a range these rights, all of which must be there. The length is rounded up to
/// whole pages.
#[tactic(auto, unfolding(crate::specs::Mprotect::mprotect_of))]
pub fn mprotect(space: &mut Space, address: u64, len: u64, prot: u64) -> Answer
    ensures called { mprotect_of space.old address len prot ≡ record { pages = space.new; answer = result } }
    ensures sound { IsSpace space.new }
{
    let _sound = space.pages();
    let rights = low_word(prot);
    if !is_page_start(address) || rights > PROT_ALL {
        return Answer::Refused(Errno::Inval);
    }
    if len == 0 {
        return Answer::Value(0);
    }
    let first = address / PAGE_SIZE;
    let count = whole_pages(len);
    if is_past_end(first, count) || space.protect(first, count, rights as u8).is_err() {
        return Answer::Refused(Errno::NoMem);
    }
    Answer::Value(0)
}
