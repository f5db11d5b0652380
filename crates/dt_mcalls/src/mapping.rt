// The call that maps pages of zeros (mmap(2)).
ghost use Rattle.std.specs.Prelude.{◌≡◌, ◌+◌, ◌<◌, ◌≤◌, ◌^◌, true, IfOk, IfErr, OnErr};
ghost use Rattle.dt_space.specs.Space.{IsSpace};
ghost use Rattle.dt_space.specs.Gaps.{is_free};
ghost use Rattle.dt_mcalls.specs.Called.{is_done};
ghost use Rattle.dt_mcalls.specs.Mmap.{is_supported, mmap_at_free, mmap_fixed, mmap_anywhere, mmap_of};

use crate::lengths::{is_page_start, is_past_end, whole_pages};
use dt_base::abi::{
    MAP_ANONYMOUS, MAP_FIXED, MAP_NORESERVE, MAP_PRIVATE, MAP_STACK, PROT_ALL, low_word,
};
use dt_base::{Answer, Errno, MMAP_START, NoMemory, PAGE_LIMIT, PAGE_SIZE};
use dt_space::{MapErr, Space};

/// The flags that a mapping needs: its zeros are the process's own.
pub const MAP_REQUIRED: u64 = MAP_PRIVATE | MAP_ANONYMOUS;

/// All flags that a mapping may have.
pub const MAP_KNOWN: u64 = MAP_REQUIRED | MAP_FIXED | MAP_NORESERVE | MAP_STACK;

/// mmap(2), for zeros of the process's own: at the address with `MAP_FIXED`, in the place of what is there, and else
/// at the lowest range from [`MMAP_START`] on that is free. The length is rounded up to whole pages, and the answer
/// is the first page's address. At want of memory pages of a fixed range may be gone.
#[tactic(auto, unfolding(crate::specs::Mmap::mmap_of))]
pub fn mmap(
    space: &mut Space,
    address: u64,
    len: u64,
    prot: u64,
    flags: u64,
) -> Result<Answer, NoMemory>
    ensures called { IfOk result (λ answer.
        mmap_of space.old address len prot flags ≡ record { pages = space.new; answer = answer }) }
    ensures memory { IfErr result (λ _. is_done (mmap_of space.old address len prot flags) ≡ true) }
    ensures sound { IsSpace space.new }
{
    let _sound = space.pages();
    if !is_supported(flags) {
        return Ok(Answer::Unsupported);
    }
    let rights = low_word(prot);
    if len == 0 || rights > PROT_ALL {
        return Ok(Answer::Refused(Errno::Inval));
    }
    let count = whole_pages(len);
    if flags & MAP_FIXED == MAP_FIXED {
        map_at(space, address, count, rights as u8)
    } else {
        map_anywhere(space, count, rights as u8)
    }
}

// Whether the flags ask for what there is.
fn is_supported(flags: u64) -> bool
    ensures { result ≡ is_supported flags }
{
    flags & MAP_REQUIRED == MAP_REQUIRED && flags | MAP_KNOWN == MAP_KNOWN
}

// Maps pages at an address, in the place of those that are there.
#[tactic(auto, unfolding(crate::specs::Mmap::mmap_fixed))]
fn map_at(space: &mut Space, address: u64, count: u64, rights: u8) -> Result<Answer, NoMemory>
    requires { 0 < count }
    ensures called { IfOk result (λ answer.
        mmap_fixed space.old address count rights ≡ record { pages = space.new; answer = answer }) }
    ensures memory { IfErr result (λ _. is_done (mmap_fixed space.old address count rights) ≡ true) }
    ensures sound { IsSpace space.new }
{
    let pages = space.pages() as u64;
    if !is_page_start(address) {
        return Ok(Answer::Refused(Errno::Inval));
    }
    let first = address / PAGE_SIZE;
    if is_past_end(first, count) {
        return Ok(Answer::Refused(Errno::NoMem));
    }
    let others = pages - space.pages_in(first, count) as u64;
    if others + count > PAGE_LIMIT {
        return Ok(Answer::Refused(Errno::NoMem));
    }
    space.unmap(first, count);
    map_free(space, first, count, rights)
}

// Maps pages at the lowest range that is free.
#[tactic(auto, unfolding(crate::specs::Mmap::mmap_anywhere))]
fn map_anywhere(space: &mut Space, count: u64, rights: u8) -> Result<Answer, NoMemory>
    requires { 0 < count }
    ensures called { IfOk result (λ answer.
        mmap_anywhere space.old count rights ≡ record { pages = space.new; answer = answer }) }
    ensures memory { IfErr result (λ _. is_done (mmap_anywhere space.old count rights) ≡ true) }
    ensures kept { OnErr result (space.new ≡ space.old) }
    ensures sound { IsSpace space.new }
{
    let _sound = space.pages();
    match space.lowest_gap(MMAP_START / PAGE_SIZE, count) {
        Some(first) => map_free(space, first, count, rights),
        None => Ok(Answer::Refused(Errno::NoMem)),
    }
}

#[tactic(auto, unfolding(crate::specs::Mmap::mmap_at_free))]
fn map_free(space: &mut Space, first: u64, count: u64, rights: u8) -> Result<Answer, NoMemory>
    requires some { 0 < count }
    requires low { first + count ≤ 2 ^ 26 }
    requires free { is_free space.old first count ≡ true }
    ensures called { IfOk result (λ answer.
        mmap_at_free space.old first count rights ≡ record { pages = space.new; answer = answer }) }
    ensures memory { IfErr result (λ _. is_done (mmap_at_free space.old first count rights) ≡ true) }
    ensures kept { OnErr result (space.new ≡ space.old) }
    ensures sound { IsSpace space.new }
{
    let _sound = space.pages();
    match space.map(first, count, rights) {
        Ok(()) => Ok(Answer::Value(first * PAGE_SIZE)),
        Err(MapErr::NoMemory) => Err(NoMemory),
        Err(_) => Ok(Answer::Refused(Errno::NoMem)),
    }
}
