//! A filter says which records match.

ghost use Rattle.std.specs.Prelude.{◌≡◌};
ghost use Rattle.record_search.specs.Words.{DescribeRows, RefusesRecord, decision_by, decision_of, formula, has_row};
ghost use Rattle.record_search.specs.Words.{is_refused, matches_record};

use crate::laws::decisions_are_right;
use crate::naming::mark_named;
use crate::reading::read_statistics;
use crate::schema::{Schema, cells_of_record, cells_of_row};
use csv_records::Delimiter;
use filter_pruning::{Outcomes, outcomes_of};
use std::alloc::{AllocError, Global};
use vortex_filter::Filter;
use vortex_filter::laws::named_columns_decide;
use vortex_value::Scalar;
use zone_index::{Decision, Matcher, RecordError, Records};

/// A filter over the rows of a file.
#[derive(Clone, Copy, Debug)]
pub struct RowFilter<'a> {
    /// How its records are read.
    pub schema: &'a Schema,
    /// Which rows match.
    pub filter: &'a Filter,
}

/// What is used again from record to record.
#[derive(Debug, Drop)]
pub struct RowScratch {
    /// Which columns the filter names.
    named: Vec<bool>,
    /// The row of a record.
    row: Vec<Scalar>,
}

impl Records for RowFilter<'_> {
    ghost delimiter = { λ m. m.schema.now.delimiter.byte };

    ghost has_row = { λ m. has_row m.schema.now };

    ghost Describes = { λ m. DescribeRows m.schema.now };

    ghost is_refused = { λ m. is_refused m.schema.now };

    ghost Refuses = { λ m. RefusesRecord m.schema.now };

    fn delimiter_byte(&self) -> Delimiter {
        self.schema.delimiter
    }
}

impl Matcher for RowFilter<'_> {
    ghost matches = { λ m. matches_record m.schema.now (formula m.filter.now) };

    ghost decides = { λ m. decision_of m.schema.now.columns.items (formula m.filter.now) };

    type Scratch = RowScratch;

    fn scratch(&self, alloc: Global) -> RowScratch {
        RowScratch {
            named: Vec::new(alloc),
            row: Vec::new(alloc),
        }
    }

    fn is_match(
        &self,
        alloc: Global,
        scratch: &mut RowScratch,
        line: &[u8],
    ) -> Result<bool, RecordError> {
        named_columns_decide();
        let RowScratch { named, row } = scratch;
        mark_named(self.filter, self.schema.columns.len(), named)?;
        let has_row = cells_of_record(alloc, self.schema, 0, named, line, row)?;
        if has_row {
            Ok(self.filter.matches(row))
        } else {
            Ok(false)
        }
    }

    fn is_match_of_row(
        &self,
        alloc: Global,
        scratch: &mut RowScratch,
        line: &[u8],
    ) -> Result<bool, RecordError> {
        named_columns_decide();
        mark_named(self.filter, self.schema.columns.len(), &mut scratch.named)?;
        let RowScratch { named, row } = scratch;
        if cells_of_row(alloc, self.schema, named, line, row) {
            Ok(self.filter.matches(row))
        } else {
            self.is_match(alloc, scratch, line)
        }
    }

    fn decide(&self, alloc: Global, statistics: &[u8]) -> Result<Decision, AllocError> {
        decisions_are_right();
        match read_statistics(alloc, &self.schema.columns, statistics)? {
            Some(statistics) => Ok(decision_by(outcomes_of(self.filter, &statistics))),
            None => Ok(Decision::Unknown),
        }
    }
}

/// What the outcomes of a filter decide.
fn decision_by(outcomes: Outcomes) -> Decision
    ensures { result ≡ decision_by outcomes }
{
    if !outcomes.may_be_true {
        Decision::NoneMatch
    } else if outcomes.is_only_true() {
        Decision::AllMatch
    } else {
        Decision::Unknown
    }
}
