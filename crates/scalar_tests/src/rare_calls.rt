//! Calls with arguments that no worked case, no file and no text of a filter gives.

use crate::fixtures::I32;
use csv_records::{Delimiter, plain_end};
use record_rows::{ColumnType, FieldReading, Kind, ObserveError, Schema, observe_record};
use statistics_bytes::decode_statistics_into;
use std::io;
use std::process::Abort;
use vortex_dtype::Nullability::{NonNullable, Nullable};
use vortex_dtype::{DType, PType};
use vortex_filter::{CompareOperator, Filter, FilterError};
use vortex_pvalue::PValue;
use vortex_row::{SortOptions, decode_key_into};
use vortex_statistics::{Bound, ColumnStatistics};
use vortex_value::{Scalar, ScalarValue};
use zone_index::{ReadAt, SearchError, fill_from};

// ---- filters

/// An i32 between 1 and the i64 9.
fn mixed_range() -> Filter {
    Filter::Between {
        column: 0,
        lower: Scalar::primitive(1i32, NonNullable),
        upper: Scalar::primitive(9i64, NonNullable),
    }
}

/// An i32 that is equal to a literal of its type, whose raw number is an i64.
fn odd_comparison() -> Filter {
    let literal = Scalar {
        dtype: I32,
        value: Some(ScalarValue::Primitive(PValue::I64(5))),
    };
    Filter::Compare {
        column: 0,
        operator: CompareOperator::Eq,
        literal,
    }
}

#[test]
fn both_ends_of_a_range_have_the_type_of_the_column(rt: HostRuntime) {
    let columns = [I32];
    let filters = [mixed_range()];
    assert!(rt;
        matches!(
            filters[0].check(&columns),
            Err(FilterError::TypesDiffer { .. })
        )
    );
}

#[test]
fn a_literal_that_fits_is_copied_valid_or_not(rt: HostRuntime) {
    let columns = [I32];
    let filters = [odd_comparison()];
    assert!(rt; filters[0].check(&columns).is_ok());
    assert!(rt; filters[0].coerce(rt.alloc(), &columns).is_ok());
}

// ---- records, and an index of them

/// Gives a byte a read, so many times, and then ends or fails.
#[derive(Drop)]
struct Ending {
    left: u32,
    fails: bool,
}

impl ReadAt for Ending {
    fn read_at(&mut self, _at: u64, into: &mut [u8]) -> io::Result<usize> {
        if self.left > 0 {
            self.left -= 1;
            return Ok(into.len().min(1));
        }
        if self.fails {
            Err(io::Error::other("no"))
        } else {
            Ok(0)
        }
    }
}

/// Asks for four bytes where there are three.
fn read_four(fails: bool) -> Result<(), SearchError> {
    let mut reader = Ending { left: 3, fails };
    let mut into = [0u8; 4];
    fill_from(&mut reader, 0, &mut into)
}

#[test]
fn a_read_that_fails_is_told_from_one_that_ends(rt: HostRuntime) {
    assert!(rt; matches!(read_four(true), Err(SearchError::Read)));
    assert!(rt; matches!(read_four(false), Err(SearchError::CutShort)));
}

fn comma(rt: &impl Abort) -> Delimiter {
    Delimiter::new(b',').expect(rt, "a delimiter")
}

#[test]
fn an_empty_line_alone_ends(rt: HostRuntime) {
    assert!(rt; plain_end(comma(&rt), b"\n") == Some(1));
}

#[test]
fn statistics_that_count_all_rows_take_no_record(rt: HostRuntime) {
    let number = ColumnType {
        kind: Kind::Integer(PType::I32),
        nullability: NonNullable,
    };
    let schema = Schema {
        delimiter: comma(&rt),
        reading: FieldReading::new(false, Vec::new(rt.alloc())),
        columns: Vec::from_array(rt.alloc(), [number]).expect(&rt, "columns"),
    };
    let mut statistics = [ColumnStatistics {
        row_count: u64::MAX,
        null_count: None,
        lower: None,
        upper: None,
    }];
    let mut buffer = Vec::new(rt.alloc());
    let observed = observe_record(rt.alloc(), &schema, b"1\n", &mut buffer, &mut statistics);
    assert!(rt; matches!(observed, Err(ObserveError::TooManyRows)));
    drop(schema);
}

// ---- what is read into a place. That a refused key leaves no byte, a clause of `append_key` says.

/// Version 1, the flag of a lower bound, one row, and the key of 2.
const LOWER_BOUND: [u8; 12] = [1, 2, 0, 0, 0, 0, 0, 0, 0, 1, 13, 2];

#[test]
fn a_bound_read_over_an_exact_one_is_not_exact(rt: HostRuntime) {
    let exact = Bound {
        value: Scalar::primitive(7i32, NonNullable),
        is_exact: true,
    };
    let mut known = ColumnStatistics {
        row_count: 1,
        null_count: None,
        lower: Some(exact),
        upper: None,
    };
    let columns = [I32];
    let read = decode_statistics_into(rt.alloc(), &columns[0], &LOWER_BOUND, &mut known);
    assert!(rt; read.is_ok());
    assert!(rt;
        matches!(
            &known.lower,
            Some(Bound {
                is_exact: false,
                ..
            })
        )
    );
    drop(known);
}

#[test]
fn a_key_read_over_a_scalar_has_its_own_type(rt: HostRuntime) {
    let mut scalar = Scalar {
        dtype: DType::Primitive(PType::I32, Nullable),
        value: None,
    };
    let columns = [I32];
    let options = SortOptions::default();
    let read = decode_key_into(rt.alloc(), &columns[0], options, &[13, 1], &mut scalar);
    assert!(rt; read.is_ok());
    assert!(rt; !scalar.dtype.is_nullable());
    drop(scalar);
}
