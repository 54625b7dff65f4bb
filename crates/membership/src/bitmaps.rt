//! The bits of a filter, where its bytes lie.

ghost use Rattle.std.specs.Prelude.{◌≡◌, ◌*◌, ◌<◌, ◌≤◌, length};
ghost use Rattle.membership.specs.BloomFilters.{max_blocks};
ghost use Rattle.membership.specs.Words.{IsFilterLength, is_set, may_contain, place, union, with_bit, with_hash};

/// The salts of the eight words of a block.
const SALTS: [u32; 8] = [
    0x47b6_137b,
    0x4497_4d91,
    0x8824_ad5b,
    0xa2b7_289d,
    0x7054_95c7,
    0x2df1_424b,
    0x9efc_4947,
    0x5c6b_fb31,
];

/// Where the bit of a hash in a word of its block is, in a filter of so many blocks.
#[inline(always)]
#[tactic(auto, unfolding(crate::specs::BloomFilters::place))]
fn place(count: usize, hash: u64, word: usize) -> usize
    requires some { 0 < count }
    requires fits { count ≤ max_blocks }
    requires word { word < 8 }
    ensures value { result ≡ place count hash word }
    ensures within { result < 256 * count }
{
    let block = ((hash >> 32) * count as u64) >> 32;
    let low = (hash % 0x1_0000_0000) as u32;
    let bit = low.wrapping_mul(SALTS[word]) >> 27;
    256 * block as usize + 32 * word + bit as usize
}

/// Whether bit i is set.
#[inline(always)]
fn is_set(filter: &[u8], i: usize) -> bool
    requires { i < 8 * length filter.now }
    ensures { result ≡ is_set filter.now i }
{
    filter[i / 8] >> (i % 8) & 1 == 1
}

/// Sets bit i.
#[inline(always)]
fn set_bit(filter: &mut [u8], i: usize)
    requires { i < 8 * length filter.old }
    ensures { filter.new ≡ with_bit filter.old i }
{
    filter[i / 8] |= 1 << (i % 8);
}

/// Sets the bits of a hash.
pub(crate) fn set_bits(filter: &mut [u8], hash: u64)
    requires { IsFilterLength (length filter.old) }
    ensures { filter.new ≡ with_hash filter.old hash }
{
    let count = filter.len() / 32;
    for word in 0..8 {
        set_bit(filter, place(count, hash, word));
    }
}

/// Whether all bits of a hash are set.
pub(crate) fn has_bits(filter: &[u8], hash: u64) -> bool
    requires { IsFilterLength (length filter.now) }
    ensures { result ≡ may_contain filter.now hash }
{
    let count = filter.len() / 32;
    for word in 0..8 {
        if !is_set(filter, place(count, hash, word)) {
            return false;
        }
    }
    true
}

/// Sets the bits of another filter of as many bytes.
pub(crate) fn set_union(filter: &mut [u8], other: &[u8])
    requires { length filter.old ≡ length other.now }
    ensures { filter.new ≡ union filter.old other.now }
{
    for (i, byte) in other.iter().enumerate() {
        filter[i] |= *byte;
    }
}
