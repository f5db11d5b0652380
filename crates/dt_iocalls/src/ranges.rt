//! Buffers of a process in several ranges, which a call takes one after the other as one (readv(2), writev(2)).
ghost use Rattle.std.specs.Prelude.{◌≡◌, ℕ, List, ◌-◌, ◌^◌, Ok, Err, IsOk, IfOk, IfErr, OnOk, OnErr, MatchResult, length, take, drop};
ghost use Rattle.std.specs.Prelude.{min};
ghost use Rattle.dt_iocalls.specs.Ranges.{total_len, cut_to, iovec_at, iovecs_at, ranges_at, gathered_bytes};
ghost use Rattle.dt_iocalls.specs.Ranges.{scattered_pages};
ghost use Rattle.dt_iocalls.specs.inner.Gathered.{IsGatherErr};

use dt_base::abi::{IOV_MAX, TRANSFER_LIMIT};
use dt_base::{Errno, NoMemory};
use dt_space::{Miss, ReadErr, Space, WriteErr};
use std::alloc::Global;

/// The length of `struct iovec` (readv(2)).
pub const IOVEC_LEN: u64 = 16;

/// Where the length of the range stands in `struct iovec`.
pub const IOV_LEN: u64 = 8;

/// A range of addresses.
#[derive(Clone, Copy, Debug)]
pub struct Range {
    pub address: u64,
    pub len: u64,
}

// How many bytes ranges have together, as far as 64 bits go.
pub(crate) fn total_len(ranges: &[Range]) -> u64
    ensures { result ≡ min (total_len ranges.now) (2 ^ 64 - 1) }
{
    let mut total: u64 = 0;
    for range in ranges {
        total = total.saturating_add(range.len);
    }
    total
}

// The ranges that a call is handed, cut to what one call moves at most: EFAULT where one may not be read, EINVAL where
// they are too many or their bytes together are.
#[tactic(auto, unfolding(crate::specs::Ranges::ranges_at))]
pub(crate) fn ranges_at(
    alloc: Global,
    space: &Space,
    at: u64,
    count: u32,
) -> Result<Result<Vec<Range>, Errno>, NoMemory>
    ensures { IfOk result (λ found. MatchResult found
        (λ ranges. ranges_at space.now at count ≡ Ok ranges.items)
        (λ errno. ranges_at space.now at count ≡ Err errno)) }
{
    if count > IOV_MAX {
        return Ok(Err(Errno::Inval));
    }
    let mut ranges = match iovecs_at(alloc, space, at, count)? {
        Ok(ranges) => ranges,
        Err(errno) => return Ok(Err(errno)),
    };
    if total_len(&ranges) > i64::MAX as u64 {
        return Ok(Err(Errno::Inval));
    }
    cut_to(TRANSFER_LIMIT, &mut ranges);
    Ok(Ok(ranges))
}

// So many ranges, one behind the other.
#[tactic(auto, unfolding(crate::specs::Ranges::iovecs_at), using(crate::proofs::Vectors::lists_ranges))]
fn iovecs_at(
    alloc: Global,
    space: &Space,
    at: u64,
    count: u32,
) -> Result<Result<Vec<Range>, Errno>, NoMemory>
    ensures { IfOk result (λ found. MatchResult found
        (λ ranges. iovecs_at space.now at count ≡ Ok ranges.items)
        (λ errno. iovecs_at space.now at count ≡ Err errno)) }
{
    let mut ranges = Vec::new(alloc);
    let mut next = at;
    for _index in 0..count {
        match iovec_at(space, next) {
            Ok(range) => ranges.push(range)?,
            Err(errno) => return Ok(Err(errno)),
        }
        next = next.wrapping_add(IOVEC_LEN);
    }
    Ok(Ok(ranges))
}

// The range at an address.
fn iovec_at(space: &Space, at: u64) -> Result<Range, Errno>
    ensures { result ≡ iovec_at space.now at }
{
    let Ok(address) = space.load8(at) else {
        return Err(Errno::Fault);
    };
    let Ok(len) = space.load8(at.wrapping_add(IOV_LEN)) else {
        return Err(Errno::Fault);
    };
    Ok(Range { address, len })
}

// Cuts ranges to so many bytes together.
#[tactic(auto, unfolding(crate::specs::Ranges::cut_to))]
fn cut_to(limit: u64, ranges: &mut [Range])
    ensures { ranges.new ≡ cut_to limit ranges.old }
{
    let mut left = limit;
    for range in ranges.iter_mut() {
        range.len = range.len.min(left);
        left -= range.len;
    }
}

// The bytes of ranges, or the first miss.
#[tactic(auto, unfolding(crate::specs::Ranges::gathered_bytes), using(crate::proofs::Vectors::after_none))]
pub(crate) fn gather(alloc: Global, space: &Space, ranges: &[Range]) -> Result<Vec<u8>, ReadErr>
    ensures bytes { IfOk result (λ bytes. gathered_bytes space.now ranges.now ≡ Ok bytes.items) }
    ensures error { IfErr result (IsGatherErr space.now ranges.now) }
{
    let mut bytes = Vec::new(alloc);
    for range in ranges {
        let part = space.read_vec(alloc, range.address, range.len)?;
        if bytes.is_empty() {
            bytes = part;
        } else {
            bytes.extend_from_slice(&part)?;
        }
    }
    Ok(bytes)
}

// Whether each byte of ranges may be read; else the first miss.
#[tactic(auto, unfolding(crate::specs::Ranges::gathered_bytes))]
pub(crate) fn readable(space: &Space, ranges: &[Range]) -> Result<(), Miss>
    ensures { MatchResult result
        (λ _. IsOk (gathered_bytes space.now ranges.now))
        (λ miss. gathered_bytes space.now ranges.now ≡ Err miss) }
{
    for range in ranges {
        if let Err(miss) = space.readable(range.address, range.len) {
            return Err(miss);
        }
    }
    Ok(())
}

// So many bytes of ranges that may be read, from an offset into all of their bytes on. No others are copied.
pub(crate) fn gather_piece(
    alloc: Global,
    space: &Space,
    ranges: &[Range],
    offset: u64,
    count: u64,
) -> Result<Vec<u8>, NoMemory>
    requires { IsOk (gathered_bytes space.now ranges.now) }
    ensures { IfOk result (λ piece. IfOk (gathered_bytes space.now ranges.now)
        (λ bytes. piece.items ≡ take count (drop offset bytes))) }
{
    let mut piece = Vec::new(alloc);
    let (mut skip, mut left) = (offset, count);
    for range in ranges {
        let skipped = skip.min(range.len);
        let len = left.min(range.len - skipped);
        match space.read_vec(alloc, range.address.wrapping_add(skipped), len) {
            Ok(bytes) => piece.extend_from_slice(&bytes)?,
            Err(ReadErr::Miss(_)) => unreachable!(),
            Err(ReadErr::NoMemory) => return Err(NoMemory),
        }
        skip -= skipped;
        left -= len;
    }
    Ok(piece)
}

// Puts bytes into ranges, as far as the bytes go; at a miss none, and the space stays. Memory is wanting only where all
// of them may be put; then some ranges may be filled.
pub(crate) fn scatter(
    space: &mut Space,
    ranges: &[Range],
    bytes: &[u8],
) -> Result<Result<(), Miss>, NoMemory>
    ensures scattered { IfOk result (λ came. MatchResult came
        (λ _. scattered_pages space.old ranges.now bytes.now ≡ Ok space.new)
        (λ miss. scattered_pages space.old ranges.now bytes.now ≡ Err miss)) }
    ensures kept { IfOk result (λ came. OnErr came (space.new ≡ space.old)) }
    ensures memory { OnErr result (IsOk (scattered_pages space.old ranges.now bytes.now)) }
{
    if let Err(miss) = may_scatter(space, ranges, bytes) {
        return Ok(Err(miss));
    }
    put(space, ranges, bytes)?;
    Ok(Ok(()))
}

// Whether bytes may be put into ranges; else the first miss.
pub(crate) fn may_scatter(space: &Space, ranges: &[Range], bytes: &[u8]) -> Result<(), Miss>
    ensures { MatchResult result
        (λ _. IsOk (scattered_pages space.now ranges.now bytes.now))
        (λ miss. scattered_pages space.now ranges.now bytes.now ≡ Err miss) }
{
    let mut left = bytes;
    for range in ranges {
        let (part, rest) = divided(left, range.len);
        if let Err(miss) = space.writable(range.address, part.len() as u64) {
            return Err(miss);
        }
        left = rest;
    }
    Ok(())
}

// Whether each byte of ranges may be written; else the first miss.
pub(crate) fn writable(space: &Space, ranges: &[Range]) -> Result<(), Miss>
    ensures { MatchResult result
        (λ _. (bytes : List ℕ) → length bytes ≡ total_len ranges.now
        → IsOk (scattered_pages space.now ranges.now bytes))
        (λ miss. (bytes : List ℕ) → length bytes ≡ total_len ranges.now
        → scattered_pages space.now ranges.now bytes ≡ Err miss) }
{
    for range in ranges {
        if let Err(miss) = space.writable(range.address, range.len) {
            return Err(miss);
        }
    }
    Ok(())
}

// Puts bytes into ranges where they may be. Where memory is wanting some ranges may be filled.
pub(crate) fn put(space: &mut Space, ranges: &[Range], bytes: &[u8]) -> Result<(), NoMemory>
    requires { IsOk (scattered_pages space.old ranges.now bytes.now) }
    ensures { OnOk result (scattered_pages space.old ranges.now bytes.now ≡ Ok space.new) }
{
    let mut left = bytes;
    for range in ranges {
        let (part, rest) = divided(left, range.len);
        match space.write_bytes(range.address, part) {
            Ok(()) => {}
            Err(WriteErr::Miss(_)) => unreachable!(),
            Err(WriteErr::NoMemory) => return Err(NoMemory),
        }
        left = rest;
    }
    Ok(())
}

// The first bytes, so many or all where they are fewer, and those behind them.
fn divided(bytes: &[u8], count: u64) -> (&[u8], &[u8])
    ensures first { result.0.now ≡ take count bytes.now }
    ensures rest { result.1.now ≡ drop count bytes.now }
{
    bytes.split_at(count.min(bytes.len() as u64) as usize)
}
