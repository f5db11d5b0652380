// Words that are counted as they come, and stored as long as they are within the limit.
ghost use Rattle.std.specs.Prelude.{◌≡◌, ◌+◌, ◌-◌, ◌^◌, ◌++◌, ◌∷◌, [], min, length, nat_le, nat_lt, Some, None, OnOk};
ghost use Rattle.std.specs.Prelude.{if◌then◌else◌};

use dt_base::{ARGUMENT_LIMIT, Blob, NoMemory};
use std::alloc::Global;

/// Words, and what they count: each its length and 9. Past the limit no more are stored.
#[derive(Drop)]
pub struct WordList {
    words: Vec<Blob>,
    size: u64,
}

impl WordList {
    /// A list without a word.
    pub fn new(alloc: Global) -> Self
        ensures words { result.words.items ≡ [] }
        ensures size { result.size ≡ 0 }
    {
        WordList {
            words: Vec::new(alloc),
            size: 0,
        }
    }

    /// Adds a word.
    pub fn add(&mut self, word: Blob) -> Result<(), NoMemory>
        ensures size { self.new.size ≡ min (self.old.size + length word + 9) (2 ^ 64 - 1) }
        ensures words { OnOk result (self.new.words.items ≡ (if nat_le self.new.size ARGUMENT_LIMIT
            then self.old.words.items ++ word ∷ [] else self.old.words.items)) }
    {
        self.size = self
            .size
            .saturating_add(word.len() as u64)
            .saturating_add(9);
        if self.size <= ARGUMENT_LIMIT {
            self.words.push(word)?;
        }
        Ok(())
    }

    /// Whether they count more than the limit.
    pub fn is_past_limit(&self) -> bool
        ensures { result ≡ nat_lt ARGUMENT_LIMIT self.now.size }
    {
        self.size > ARGUMENT_LIMIT
    }

    /// The words, unless they count more than the limit.
    pub fn within_limit(self) -> Option<Vec<Blob>>
        ensures { result ≡ (if nat_le self.size ARGUMENT_LIMIT then Some self.words else None) }
    {
        if self.size > ARGUMENT_LIMIT {
            return None;
        }
        Some(self.words)
    }
}
