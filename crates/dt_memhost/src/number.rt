// The numbers that words choose: those of nodes and those of processes.
ghost use Rattle.std.specs.Prelude.{◌≡◌, ◌<◌};
ghost use Rattle.dt_memhost.specs.Number.{next_free, IsChosenNumber, IsLeastAbove};
ghost use Rattle.dt_memhost.specs.inner.Live.{has_number};

use std::collections::BTreeMap;

/// How many numbers of nodes, from 1 on, words choose from.
pub const INODE_NUMBERS: u32 = 16_384;

/// How many pids, from 1 on, words choose from.
pub const PID_NUMBERS: u32 = 128;

/// The number that a word chooses out of so many, where those of a map are live.
pub(crate) fn number_by<V>(live: &BTreeMap<u64, V>, limit: u32, word: u32) -> u64
    requires { 0 < limit }
    ensures { IsChosenNumber (has_number live.now) limit word result }
{
    match number_around(live, limit, word) {
        Some(number) => number,
        None => number_above(live, limit),
    }
}

// The word's number, or the next upwards that isn't live, going round.
fn number_around<V>(live: &BTreeMap<u64, V>, limit: u32, word: u32) -> Option<u64>
    requires { 0 < limit }
    ensures { result ≡ next_free (has_number live.now) limit word limit }
{
    let limit = u64::from(limit);
    for step in 0..limit {
        let number = 1 + (u64::from(word) + step) % limit;
        if !live.contains_key(&number) {
            return Some(number);
        }
    }
    None
}

// The least number above the limit that isn't live.
fn number_above<V>(live: &BTreeMap<u64, V>, limit: u32) -> u64
    ensures { IsLeastAbove (has_number live.now) limit result }
{
    let limit = u64::from(limit);
    for number in limit + 1..limit + 2 + live.len() as u64 {
        if !live.contains_key(&number) {
            return number;
        }
    }
    unreachable!()
}
