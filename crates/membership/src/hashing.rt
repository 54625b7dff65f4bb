//! XXH64 with the seed 0.

ghost use Rattle.std.specs.Prelude.{◌≡◌, ◌<◌, List, fold, length};
ghost use Rattle.std.specs.Int.{from_le_bytes, w64};
ghost use Rattle.membership.specs.Words.{after_stripes, avalanche, converged, merged, of_stripes, round, tail_of};
ghost use Rattle.membership.specs.Words.{with_byte, with_half, with_stripe, with_stripes, with_tail, with_word};
ghost use Rattle.membership.specs.Words.{words_of, xxh64};

const PRIME1: u64 = 0x9e37_79b1_85eb_ca87;

const PRIME2: u64 = 0xc2b2_ae3d_27d4_eb4f;

const PRIME3: u64 = 0x1656_67b1_9e37_79f9;

const PRIME4: u64 = 0x85eb_ca77_c2b2_ae63;

const PRIME5: u64 = 0x27d4_eb2f_1656_67c5;

/// The accumulators before the first stripe, of four words.
const INITIAL: [u64; 4] = [
    0x60ea_27ee_adc0_b5d6,
    0xc2b2_ae3d_27d4_eb4f,
    0,
    0x61c8_864e_7a14_3579,
];

/// The hash of these bytes.
pub fn xxh64(bytes: &[u8]) -> u64
    ensures { result ≡ xxh64 bytes.now }
{
    let (words, tail) = bytes.as_chunks::<8>();
    let (stripes, rest) = hash_stripes(words);
    let hash = hash_words(stripes.wrapping_add(bytes.len() as u64), rest);
    avalanche(hash_tail(hash, tail))
}

/// The hash of the whole stripes, and the words that follow them.
fn hash_stripes(words: &[[u8; 8]]) -> (u64, &[[u8; 8]])
    ensures hash { result.0 ≡ of_stripes words.now }
    ensures rest { result.1.now ≡ after_stripes words.now }
{
    let mut accumulators = INITIAL;
    let mut rest = words;
    while let [a, b, c, d, after @ ..] = rest {
        add_stripe(&mut accumulators, a, b, c, d);
        rest = after;
    }
    if words.len() < 4 {
        (PRIME5, rest)
    } else {
        (converged(&accumulators), rest)
    }
}

/// An accumulator with a word more.
#[inline(always)]
#[tactic(auto, unfolding(crate::specs::Xxh64::round))]
fn round(accumulator: u64, word: u64) -> u64
    ensures { result ≡ round accumulator word }
{
    accumulator
        .wrapping_add(word.wrapping_mul(PRIME2))
        .rotate_left(31)
        .wrapping_mul(PRIME1)
}

/// Adds a stripe to the accumulators.
#[inline(always)]
#[tactic(auto, unfolding(crate::specs::Xxh64::with_stripe))]
fn add_stripe(accumulators: &mut [u64; 4], a: &[u8; 8], b: &[u8; 8], c: &[u8; 8], d: &[u8; 8])
    ensures { accumulators.new ≡ with_stripe accumulators.old a.now b.now c.now d.now }
{
    *accumulators = [
        round(accumulators[0], u64::from_le_bytes(*a)),
        round(accumulators[1], u64::from_le_bytes(*b)),
        round(accumulators[2], u64::from_le_bytes(*c)),
        round(accumulators[3], u64::from_le_bytes(*d)),
    ];
}

/// The accumulators as one hash.
#[tactic(auto, unfolding(crate::specs::Xxh64::converged))]
fn converged(accumulators: &[u64; 4]) -> u64
    ensures { result ≡ converged accumulators.now }
{
    let [first, second, third, fourth] = *accumulators;
    let hash = first
        .rotate_left(1)
        .wrapping_add(second.rotate_left(7))
        .wrapping_add(third.rotate_left(12))
        .wrapping_add(fourth.rotate_left(18));
    merged(merged(merged(merged(hash, first), second), third), fourth)
}

/// A hash with an accumulator.
#[tactic(auto, unfolding(crate::specs::Xxh64::merged))]
fn merged(hash: u64, accumulator: u64) -> u64
    ensures { result ≡ merged hash accumulator }
{
    (hash ^ round(0, accumulator))
        .wrapping_mul(PRIME1)
        .wrapping_add(PRIME4)
}

/// A hash with the words that no stripe has.
fn hash_words(hash: u64, words: &[[u8; 8]]) -> u64
    ensures { result ≡ fold with_word hash words.now }
{
    let mut hash = hash;
    for word in words {
        hash = with_word(hash, word);
    }
    hash
}

#[tactic(auto, unfolding(crate::specs::Xxh64::with_word))]
fn with_word(hash: u64, word: &[u8; 8]) -> u64
    ensures { result ≡ with_word hash word.now }
{
    (hash ^ round(0, u64::from_le_bytes(*word)))
        .rotate_left(27)
        .wrapping_mul(PRIME1)
        .wrapping_add(PRIME4)
}

/// A hash with the fewer than eight bytes that no word has.
#[tactic(auto, unfolding(crate::specs::Xxh64::with_tail))]
fn hash_tail(hash: u64, tail: &[u8]) -> u64
    ensures { result ≡ with_tail hash tail.now }
{
    match tail {
        [a, b, c, d, bytes @ ..] => hash_bytes(with_half(hash, [*a, *b, *c, *d]), bytes),
        _ => hash_bytes(hash, tail),
    }
}

#[tactic(auto, unfolding(crate::specs::Xxh64::with_half))]
fn with_half(hash: u64, half: [u8; 4]) -> u64
    ensures { result ≡ with_half hash half }
{
    (hash ^ (u32::from_le_bytes(half) as u64).wrapping_mul(PRIME1))
        .rotate_left(23)
        .wrapping_mul(PRIME2)
        .wrapping_add(PRIME3)
}

fn hash_bytes(hash: u64, bytes: &[u8]) -> u64
    ensures { result ≡ fold with_byte hash bytes.now }
{
    let mut hash = hash;
    for byte in bytes {
        hash = with_byte(hash, *byte);
    }
    hash
}

#[tactic(auto, unfolding(crate::specs::Xxh64::with_byte))]
fn with_byte(hash: u64, byte: u8) -> u64
    ensures { result ≡ with_byte hash byte }
{
    (hash ^ (byte as u64).wrapping_mul(PRIME5))
        .rotate_left(11)
        .wrapping_mul(PRIME1)
}

/// The last mixing.
#[tactic(auto, unfolding(crate::specs::Xxh64::avalanche))]
fn avalanche(hash: u64) -> u64
    ensures { result ≡ avalanche hash }
{
    let once = (hash ^ (hash >> 33)).wrapping_mul(PRIME2);
    let twice = (once ^ (once >> 29)).wrapping_mul(PRIME3);
    twice ^ (twice >> 32)
}
