//! Calls of filters of membership.

use crate::membership_inputs::{Input, MembershipInputs};
use case_lines::{Answer, CallResult, Line, Named, buffer_bytes};
use membership::{
    BloomFilterError, MAX_BLOCKS, SplitBlockBloomFilter, SplitBlockBloomFilterRef, blocks_for,
    xxh64,
};
use std::alloc::Global;
use vortex_dtype::ByteBuffer;

#[derive(Clone, Copy)]
enum Call {
    Hash,
    Blocks,
    Filter,
    OfFilter(FilterCall),
}

/// A call of a filter whose bytes stand in the line.
#[derive(Clone, Copy)]
enum FilterCall {
    InsertHash,
    MayContain,
    MayContainHash,
    Merge,
}

const CALLS: [Named<Call, Input>; 7] = [
    ("xxh64", Call::Hash, &[Input::Value]),
    ("blocks_for", Call::Blocks, &[Input::Count, Input::Rate]),
    ("bloom_filter", Call::Filter, &[Input::Count, Input::Values]),
    (
        "bloom_insert_hash",
        Call::OfFilter(FilterCall::InsertHash),
        &[Input::Filter, Input::Hash],
    ),
    (
        "bloom_may_contain",
        Call::OfFilter(FilterCall::MayContain),
        &[Input::Filter, Input::Value],
    ),
    (
        "bloom_may_contain_hash",
        Call::OfFilter(FilterCall::MayContainHash),
        &[Input::Filter, Input::Hash],
    ),
    (
        "bloom_merge",
        Call::OfFilter(FilterCall::Merge),
        &[Input::Filter, Input::Other],
    ),
];

/// Answers the line if it names one of these calls.
pub fn answer(line: &mut Line<'_>) {
    line.lend(&CALLS, answer_of);
}

fn answer_of(alloc: Global, call: Call, given: &MembershipInputs) -> CallResult {
    match call {
        Call::Hash => {
            let hash = xxh64(given.value.as_str().as_bytes());
            bytes_answer(alloc, &hash.to_be_bytes())
        }
        Call::Blocks => Ok(Answer::Number(blocks_for(given.count, given.rate))),
        Call::Filter => filter_of_values(alloc, given),
        Call::OfFilter(call) => {
            match SplitBlockBloomFilterRef::from_bytes(given.filter.as_slice()) {
                Ok(filter) => answer_of_filter(alloc, call, given, &filter),
                Err(error) => refused(alloc, error),
            }
        }
    }
}

fn bytes_answer(alloc: Global, bytes: &[u8]) -> CallResult {
    Ok(buffer_bytes(ByteBuffer::from_slice(alloc, bytes)?))
}

fn filter_answer(alloc: Global, filter: &SplitBlockBloomFilter) -> CallResult {
    bytes_answer(alloc, filter.as_ref().as_bytes())
}

/// The name of a refusal.
fn refused(alloc: Global, error: BloomFilterError) -> CallResult {
    let name = match error {
        BloomFilterError::BadLength => "BadLength",
        BloomFilterError::DifferentLengths => "DifferentLengths",
    };
    Ok(Answer::Written(String::from_str(alloc, name)?))
}

/// A filter of so many blocks that contains the values.
fn filter_of_values(alloc: Global, given: &MembershipInputs) -> CallResult {
    if given.count == 0 || given.count > MAX_BLOCKS as u64 {
        return Ok(Answer::Unmet);
    }
    let mut filter = SplitBlockBloomFilter::new(alloc, given.count as usize)?;
    for value in &given.values {
        filter.insert(value.as_str().as_bytes());
    }
    filter_answer(alloc, &filter)
}

fn answer_of_filter(
    alloc: Global,
    call: FilterCall,
    given: &MembershipInputs,
    filter: &SplitBlockBloomFilterRef<'_>,
) -> CallResult {
    match call {
        FilterCall::InsertHash => {
            let mut filter = filter.to_filter(alloc)?;
            filter.insert_hash(given.hash);
            filter_answer(alloc, &filter)
        }
        FilterCall::MayContain => {
            let value = given.value.as_str().as_bytes();
            Ok(Answer::Truth(filter.may_contain(value)))
        }
        FilterCall::MayContainHash => Ok(Answer::Truth(filter.may_contain_hash(given.hash))),
        FilterCall::Merge => union_answer(alloc, filter, given.other.as_slice()),
    }
}

/// The union of a filter and of one that has these bytes.
fn union_answer(alloc: Global, filter: &SplitBlockBloomFilterRef<'_>, bytes: &[u8]) -> CallResult {
    let other = match SplitBlockBloomFilterRef::from_bytes(bytes) {
        Ok(other) => other,
        Err(error) => return refused(alloc, error),
    };
    let mut union = filter.to_filter(alloc)?;
    match union.merge(&other) {
        Ok(()) => filter_answer(alloc, &union),
        Err(error) => refused(alloc, error),
    }
}
