//! Filters that own their bytes, and filters in bytes that they borrow.

ghost use Rattle.std.specs.Prelude.{◌≡◌, ◌≢◌, ◌<◌, ◌≤◌, ℕ, List, IfOk, MatchResult, OnOk, length, false, true};
ghost use Rattle.membership.specs.declared.error.BloomFilterError.TheVariants.{BadLength, DifferentLengths};
ghost use Rattle.membership.specs.BloomFilters.{max_blocks};
ghost use Rattle.membership.specs.Words.{IsFilterLength, empty_filter, may_contain, union, with_hash, xxh64};

use crate::bitmaps::{has_bits, set_bits, set_union};
use crate::capacities::MAX_BLOCKS;
use crate::error::BloomFilterError;
use crate::hashing::xxh64;
use std::alloc::{AllocError, Global};
use std::marker::Model;

/// A split block Bloom filter. Contracts see it as its bytes, which are those that Parquet stores.
#[derive(Debug, Drop)]
pub struct SplitBlockBloomFilter {
    bytes: Vec<u8>,
}

impl Model for SplitBlockBloomFilter {
    ghost Value = { List ℕ };

    ghost view = { λ filter. filter.bytes.items };

    ghost invariant = { λ filter. IsFilterLength (length filter.bytes.items) };
}

/// A split block Bloom filter in bytes that it borrows. Contracts see it as those bytes.
#[derive(Debug, Drop)]
pub struct SplitBlockBloomFilterRef<'a> {
    bytes: &'a [u8],
}

impl<'a> Model for SplitBlockBloomFilterRef<'a> {
    ghost Value = { List ℕ };

    ghost view = { λ filter. filter.bytes.now };

    ghost invariant = { λ filter. IsFilterLength (length filter.bytes.now) };
}

impl SplitBlockBloomFilter {
    /// A filter of so many blocks that contains nothing.
    pub fn new(alloc: Global, blocks: usize) -> Result<SplitBlockBloomFilter, AllocError>
        requires some { 0 < blocks }
        requires fits { blocks ≤ max_blocks }
        ensures filter { IfOk result (λ filter. filter ≡ empty_filter blocks) }
        ensures nothing { IfOk result (λ filter. (hash : ℕ) → may_contain filter hash ≡ false) }
    {
        let bytes = vec![in alloc; 0; 32 * blocks]?;
        Ok(SplitBlockBloomFilter { bytes })
    }

    /// Inserts a value.
    pub fn insert(&mut self, value: &[u8])
        ensures filter { self.new ≡ with_hash self.old (xxh64 value.now) }
        ensures inserted { may_contain self.new (xxh64 value.now) ≡ true }
        ensures kept { (hash : ℕ) → may_contain self.old hash ≡ true → may_contain self.new hash ≡ true }
    {
        self.insert_hash(xxh64(value));
    }

    /// Inserts the values that have this hash.
    pub fn insert_hash(&mut self, hash: u64)
        ensures filter { self.new ≡ with_hash self.old hash }
        ensures inserted { may_contain self.new hash ≡ true }
        ensures kept { (other : ℕ) → may_contain self.old other ≡ true → may_contain self.new other ≡ true }
    {
        set_bits(self.bytes.as_mut_slice(), hash);
    }

    /// Inserts what another filter contains. Refused if that has another number of blocks: this filter
    /// is then as it was.
    pub fn merge(&mut self, other: &SplitBlockBloomFilterRef<'_>) -> Result<(), BloomFilterError>
        ensures filter { MatchResult result
            (λ _. (length self.old ≡ length other.now) × (self.new ≡ union self.old other.now))
            (λ e. (e ≡ DifferentLengths) × (length self.old ≢ length other.now) × (self.new ≡ self.old)) }
        ensures kept { (hash : ℕ) → may_contain self.old hash ≡ true → may_contain self.new hash ≡ true }
        ensures merged { OnOk result
            ((hash : ℕ) → may_contain other.now hash ≡ true → may_contain self.new hash ≡ true) }
    {
        if self.bytes.len() != other.bytes.len() {
            return Err(BloomFilterError::DifferentLengths);
        }
        set_union(self.bytes.as_mut_slice(), other.bytes);
        Ok(())
    }

    /// The same filter, borrowed.
    pub fn as_ref(&self) -> SplitBlockBloomFilterRef<'_>
        ensures { result ≡ self.now }
    {
        SplitBlockBloomFilterRef {
            bytes: self.bytes.as_slice(),
        }
    }
}

impl<'a> SplitBlockBloomFilterRef<'a> {
    /// The filter that has these bytes.
    pub fn from_bytes(bytes: &'a [u8]) -> Result<SplitBlockBloomFilterRef<'a>, BloomFilterError>
        ensures { MatchResult result
            (λ filter. (filter ≡ bytes.now) × IsFilterLength (length bytes.now))
            (λ e. (e ≡ BadLength) × ¬ (IsFilterLength (length bytes.now))) }
    {
        let blocks = bytes.len() / 32;
        if blocks == 0 || blocks > MAX_BLOCKS || bytes.len() % 32 != 0 {
            return Err(BloomFilterError::BadLength);
        }
        Ok(SplitBlockBloomFilterRef { bytes })
    }

    /// The filter's bytes.
    pub fn as_bytes(&self) -> &'a [u8]
        ensures bytes { result.now ≡ self.now }
        ensures length { IsFilterLength (length result.now) }
    {
        self.bytes
    }

    /// Whether a value may have been inserted: `false` only if it was not.
    pub fn may_contain(&self, value: &[u8]) -> bool
        ensures { result ≡ may_contain self.now (xxh64 value.now) }
    {
        self.may_contain_hash(xxh64(value))
    }

    /// Whether a value that has this hash may have been inserted.
    pub fn may_contain_hash(&self, hash: u64) -> bool
        ensures { result ≡ may_contain self.now hash }
    {
        has_bits(self.bytes, hash)
    }

    /// A copy that owns its bytes.
    pub fn to_filter(&self, alloc: Global) -> Result<SplitBlockBloomFilter, AllocError>
        ensures { IfOk result (λ filter. filter ≡ self.now) }
    {
        let bytes = Vec::from_slice(alloc, self.bytes)?;
        Ok(SplitBlockBloomFilter { bytes })
    }
}
