// What a pass knows.
use std::collections::LinkedList;

/// How many places a board has.
pub const PLACES: usize = 64;

// Contracts alone speak of views, and no value is made. The engine's tells of each place whether a job is put there. A
// try is a place and the word that was found there.
pub enum View {
    // The slots are still at home.
    Opening,
    // Which places are put, and the tries.
    Engine(LinkedList<bool>, LinkedList<(u64, u64)>),
    // The place that is claimed, and the tries.
    Worker(Option<u64>, LinkedList<(u64, u64)>),
    // The pass was joined to another.
    Spent,
}
