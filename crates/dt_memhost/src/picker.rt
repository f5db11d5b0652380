// The words of all choices: a list, then a ChaCha8 stream.
ghost use Rattle.std.specs.Prelude.{◌≡◌};
ghost use Rattle.dt_memhost.specs.Picks.{picks_of, next_pick};

use rand_chacha::ChaCha8Rng;
use rand_core::SeedableRng;
use rand_core::utils::NextWord;
use std::marker::Model;
use std::vec::IntoIter;

/// The words that choices are made by: those of a list, then the ChaCha8 stream of a number.
#[derive(Drop)]
pub struct Picker {
    words: IntoIter<u32>,
    stream: ChaCha8Rng,
}

impl Model for Picker {
    ghost use Rattle.std.specs.Vec.Iter.{into_iter_items};
    ghost use Rattle.dt_memhost.specs.Picks.{Picks};

    ghost Value = { Picks };

    ghost view = { λ p. record { words = into_iter_items p.words; stream = p.stream } };
}

impl Picker {
    /// Words of a list, then those of the stream whose key is the number's 8 little-endian bytes and 24 zeros.
    pub fn new(words: Vec<u32>, number: u64) -> Picker
        ensures { result ≡ picks_of words.items number }
    {
        let mut seed = [0; 32];
        seed[..8].copy_from_slice(&number.to_le_bytes());
        Picker {
            words: words.into_iter(),
            stream: ChaCha8Rng::from_seed(seed),
        }
    }

    /// The next word.
    pub(crate) fn word(&mut self) -> u32
        ensures word { result ≡ (next_pick self.old).0 }
        ensures rest { self.new ≡ (next_pick self.old).1 }
    {
        match self.words.next() {
            Some(word) => word,
            None => self.stream.next_word(),
        }
    }
}
