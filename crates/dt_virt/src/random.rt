// The words of a seed.
ghost use Rattle.std.specs.Prelude.{◌≡◌, ◌<◌, ◌^◌, length};
ghost use Rattle.rand_chacha.specs.ChaCha.{key_of};
ghost use Rattle.dt_virt.specs.Words.{key_of_seed, words_of_seed, next_bytes, rest_after, start_bytes};

use rand_chacha::ChaCha20Rng;
use rand_core::SeedableRng;
use rand_core::utils::fill_bytes_via_u32;
use sha2::{Digest, Sha256};
use std::marker::Model;

// The stream that draws don't touch.
const START_STREAM: u64 = 1;

/// Seeded words: the ChaCha20 streams whose key is the SHA-256 of a seed.
#[derive(Drop)]
pub struct Rand {
    key: [u8; 32],
    words: ChaCha20Rng,
}

impl Model for Rand {
    ghost use Rattle.std.specs.Prelude.{◌≡◌, ◌<◌, ◌^◌};
    ghost use Rattle.rand_chacha.specs.ChaCha.{key_of};
    ghost use Rattle.dt_virt.specs.Words.{SeededWords};

    ghost Value = { SeededWords };

    ghost view = { λ r. record { key = r.key; word_pos = r.words.word_pos } };

    ghost invariant = { λ r. (r.words.key ≡ key_of r.key) × (r.words.stream ≡ 0) × (r.words.word_pos < 2 ^ 68) };
}

impl Rand {
    /// The words of a seed.
    pub fn new(seed: u64) -> Rand
        ensures { result ≡ words_of_seed seed }
    {
        let key = key_of_seed(seed);
        Rand {
            key,
            words: ChaCha20Rng::from_seed(key),
        }
    }

    /// Fills `buf` with the next bytes of stream 0: as many whole words as cover it, each with its lowest byte first,
    /// the rest of the last dropped.
    pub fn fill(&mut self, buf: &mut [u8])
        ensures bytes { buf.new ≡ next_bytes self.old (length buf.old) }
        ensures rest { self.new ≡ rest_after self.old (length buf.old) }
    {
        fill_bytes_via_u32(&mut self.words, buf);
    }

    /// Words 0 to 3 of stream 1, each with its lowest byte first: the same whatever was drawn.
    pub fn start16(&self) -> [u8; 16]
        ensures { result ≡ start_bytes self.now }
    {
        let mut words = start_words(self.key);
        let mut bytes = [0; 16];
        fill_bytes_via_u32(&mut words, &mut bytes);
        bytes
    }
}

// The key of a seed: the SHA-256 of its 8 bytes, the lowest first.
fn key_of_seed(seed: u64) -> [u8; 32]
    ensures { result ≡ key_of_seed seed }
{
    Sha256::digest(seed.to_le_bytes())
}

// The words of stream 1.
fn start_words(key: [u8; 32]) -> ChaCha20Rng
    ensures { result ≡ record { key = key_of key; stream = START_STREAM; word_pos = 0 } }
{
    let mut words = ChaCha20Rng::from_seed(key);
    words.set_stream(START_STREAM);
    words
}
