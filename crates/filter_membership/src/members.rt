//! The members of the columns of a zone.

ghost use Rattle.std.specs.Prelude.{◌≡◌, ℕ, Bool};
ghost use Rattle.filter_membership.specs.Words.{filter_at, may_contain_in, may_have_by, option_copied};

use membership::SplitBlockBloomFilterRef;

/// The members of the columns of a zone, by the hashes of their values.
pub trait Members {
    // Whether a column may have a value with a hash.
    ghost may_have: { Self → ℕ → ℕ → Bool };

    /// Whether a column may have a value with this hash.
    fn may_have(&self, column: usize, hash: u64) -> bool
        ensures { result ≡ may_have self.now column hash };
}

/// The Bloom filters of columns: that of column k at k. A column without one may have any value, and they
/// may end early.
#[derive(Clone, Copy)]
pub struct ColumnFilters<'a> {
    pub filters: &'a [Option<SplitBlockBloomFilterRef<'a>>],
}

impl Members for ColumnFilters<'_> {
    ghost may_have = { λ members. may_have_by members.filters.now };

    fn may_have(&self, column: usize, hash: u64) -> bool {
        may_contain_in(filter_at(self.filters, column), hash)
    }
}

/// The filter of this column, if it has one.
fn filter_at<'a, 'b>(
    filters: &'a [Option<SplitBlockBloomFilterRef<'b>>],
    column: usize,
) -> Option<&'a SplitBlockBloomFilterRef<'b>>
    ensures { option_copied result ≡ filter_at filters.now column }
{
    if column < filters.len() {
        filters[column].as_ref()
    } else {
        None
    }
}

/// Whether a filter may contain a hash: without one it may.
fn may_contain_in(filter: Option<&SplitBlockBloomFilterRef<'_>>, hash: u64) -> bool
    ensures { result ≡ may_contain_in (option_copied filter.entry) hash }
{
    match filter {
        Some(filter) => filter.may_contain_hash(hash),
        None => true,
    }
}
