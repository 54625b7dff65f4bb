//! What was inserted into a filter of membership is found, after a merge and by its bytes.

ghost use Rattle.std.specs.Prelude.{◌≡◌, ◌/◌, ◌==◌, ◌||◌, ℕ, IfOk, length, true};
ghost use Rattle.std.specs.List.{list_any};
ghost use Rattle.membership.specs.Words.{is_set, may_contain, places, xxh64};

use membership::laws::bits_are_those_of_hashes;
use membership::{BloomFilterError, SplitBlockBloomFilter, SplitBlockBloomFilterRef};

/// Inserts a value into a filter, merges that into another, and asks the bytes of the union for it.
pub fn finds_after_merge(
    filter: &mut SplitBlockBloomFilter,
    union: &mut SplitBlockBloomFilter,
    value: &[u8],
) -> Result<bool, BloomFilterError>
    ensures { IfOk result (λ found. found ≡ true) }
{
    filter.insert(value);
    union.merge(&filter.as_ref())?;
    finds_in_bytes(union, value)
}

/// Reads the bytes of a filter, and asks them for a value.
fn finds_in_bytes(filter: &SplitBlockBloomFilter, value: &[u8]) -> Result<bool, BloomFilterError>
    ensures { IfOk result (λ found. found ≡ may_contain filter.now (xxh64 value.now)) }
{
    let read = SplitBlockBloomFilterRef::from_bytes(filter.as_ref().as_bytes())?;
    Ok(read.may_contain(value))
}

/// Inserts a value, and says which bits the filter has then.
pub fn sets_eight_bits(filter: &mut SplitBlockBloomFilter, hash: u64)
    ensures { (i : ℕ) → is_set filter.new i ≡ (is_set filter.old i
        || list_any (λ place. place == i) (places (length filter.old / 32) hash)) }
{
    bits_are_those_of_hashes();
    let _bytes = filter.as_ref().as_bytes();
    filter.insert_hash(hash);
}
