// Seeded words against published vectors, and against other programs.
use crate::expect::{same, same_at};
use dt_virt::Rand;
use rand_chacha::ChaCha20Rng;
use rand_core::SeedableRng;
use rand_core::utils::NextWord;
use sha2::{Digest, Sha256};

// The key 00 01 .. 1f of RFC 8439, 2.3.2.
const RISING_KEY: [u8; 32] = [
    0, 1, 2, 3, 4, 5, 6, 7, 8, 9, 10, 11, 12, 13, 14, 15, 16, 17, 18, 19, 20, 21, 22, 23, 24, 25,
    26, 27, 28, 29, 30, 31,
];

// The key of seed 0: the SHA-256 of eight zeros, as another program gives it.
const KEY_OF_0: [u8; 32] = [
    0xaf, 0x55, 0x70, 0xf5, 0xa1, 0x81, 0x0b, 0x7a, 0xf7, 0x8c, 0xaf, 0x4b, 0xc7, 0x0a, 0x66, 0x0f,
    0x0d, 0xf5, 0x1e, 0x42, 0xba, 0xf9, 0x1d, 0x4d, 0xe5, 0xb2, 0x32, 0x8d, 0xe0, 0xe8, 0x3d, 0xfc,
];

// SHA-256 of "abc" (FIPS 180-4's example).
const ABC: [u8; 32] = [
    0xba, 0x78, 0x16, 0xbf, 0x8f, 0x01, 0xcf, 0xea, 0x41, 0x41, 0x40, 0xde, 0x5d, 0xae, 0x22, 0x23,
    0xb0, 0x03, 0x61, 0xa3, 0x96, 0x17, 0x7a, 0x9c, 0xb4, 0x10, 0xff, 0x61, 0xf2, 0x00, 0x15, 0xad,
];

// Words 0 to 3 of stream 1 under the key of seed 0, from a ChaCha20 written apart and tried on the
// vectors of RFC 8439.
const START_OF_0: [u8; 16] = [
    0xf7, 0x44, 0x9d, 0x2a, 0xa0, 0x14, 0x24, 0x58, 0x4d, 0x79, 0x5b, 0xb5, 0x18, 0xc1, 0x8e, 0x42,
];

// RFC 8439, appendix A.1, vectors 1, 2 and 5, and 2.3.2. Its counter and nonce of 32 and 96 bits are here a block of 64
// bits and a stream of 64, the lower word first.
#[test]
fn words_of_the_standard(rt: HostRuntime) {
    let zero = [0; 32];
    for (key, stream, block, words) in [
        (zero, 0, 0, [0xade0_b876u32, 0x903d_f1a0, 0xe56a_5d40]),
        (zero, 0, 1, [0xbee7_079f, 0x7a38_5155, 0x7c97_ba98]),
        (zero, 2 << 56, 0, [0x374d_c6c2, 0x3736_d58c, 0xb904_e24a]),
        (
            RISING_KEY,
            0x4a00_0000,
            0x0900_0000_0000_0001,
            [0xe4e7_f110, 0x1559_3bd1, 0x1fdd_0f50],
        ),
    ] {
        let mut generator = ChaCha20Rng::from_seed(key);
        generator.set_stream(stream);
        generator.set_word_pos(block * 16);
        for word in words {
            same_at(&rt, (stream, block), generator.next_word(), word);
        }
    }
}

#[test]
fn digests_of_the_standard(rt: HostRuntime) {
    same(&rt, Sha256::digest("abc"), ABC);
    same(&rt, Sha256::digest([0; 8]), KEY_OF_0);
}

// Stream 0 of seed 0 begins 138fbe4a d2db86a0 35f20c48, by the same ChaCha20 written apart.
#[test]
fn draws_take_whole_words(rt: HostRuntime) {
    let mut random = Rand::new(0);
    let mut five = [0; 5];
    let mut four = [0; 4];
    same(&rt, random.start16(), START_OF_0);
    random.fill(&mut five);
    same(&rt, five, [0x13, 0x8f, 0xbe, 0x4a, 0xd2]);
    random.fill(&mut []);
    random.fill(&mut four);
    same(&rt, four, [0x35, 0xf2, 0x0c, 0x48]);
    same(&rt, random.start16(), START_OF_0);
}
