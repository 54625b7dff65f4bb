//! An index that is kept as bytes, and one that is searched by.

ghost use Rattle.std.specs.Prelude.{◌≡◌, ◌++◌, ℕ, List, Some, IfErr, IfOk, OnOk, length, true};
ghost use Rattle.std.specs.Io.KnownBytes.{Appends};
ghost use Rattle.vortex_filter.specs.Formula.{formula};
ghost use Rattle.zone_index.specs.Sinks.{written_of};
ghost use Rattle.zone_index.specs.Encoding.{FitsEncoding, HavePieces, IndexValue, index_encoding, index_value};
ghost use Rattle.zone_index.specs.Encoding.{wanted_of, zone_values};
ghost use Rattle.zone_index.specs.declared.encoding.ReadError.TheVariants.{Memory};
ghost use Rattle.zone_index.specs.declared.encoding.WriteError.TheVariants.{Memory as NoMemory};
ghost use Rattle.record_search.specs.Searched.{IsRowIndex, matches_record, records_under};
ghost use Rattle.record_rows.specs.declared.schema.Schema.{Schema};

use record_search::laws::{indexes_are_read_back, indexes_find_all, right_indexes_have_pieces};
use record_search::{RowDescriber, RowFilter, find_rows, index_rows, named_columns};
use std::alloc::Global;
use std::io::BufRead;
use zone_index::{
    Index, Position, ReadAt, ReadError, SearchError, Sink, WriteError, find_rest, read_blocks,
    read_root, write_index,
};

/// The index that is written as bytes and read back, with the statistics of the columns that are
/// wanted. It is right for every file for which the given one is. Where the statistics of its zones are
/// so many pieces, it is written and read unless memory runs out.
pub fn there_and_back(
    alloc: Global,
    columns: usize,
    index: &Index,
    wanted: &[bool],
) -> Result<Result<Index, ReadError>, WriteError>
    ensures right { IfOk result (λ read. IfOk read (λ kept. (s : Schema) (bytes : List ℕ)
        → IsRowIndex s index.now.start index.now.zones.items bytes
        → IsRowIndex s kept.start kept.zones.items bytes)) }
    ensures start { IfOk result (λ read. IfOk read (λ kept. kept.start ≡ index.now.start)) }
    ensures written { IfErr result (λ e. (pieces : List (List (List ℕ)))
        → HavePieces columns (zone_values index.now.zones.items) pieces → e ≡ NoMemory) }
    ensures read { IfOk result (λ read. IfErr read (λ e. e ≡ Memory)) }
{
    indexes_are_read_back();
    let bytes = write_index(alloc, columns, index)?;
    Ok(read_wanted(alloc, &bytes, wanted))
}

/// The index whose encoding these bytes are, with the statistics of the columns that are wanted.
fn read_wanted(alloc: Global, bytes: &[u8], wanted: &[bool]) -> Result<Index, ReadError>
    ensures same { IfOk result (λ kept. (n : ℕ) (x : IndexValue) (pieces : List (List (List ℕ)))
        → FitsEncoding n x pieces → bytes.now ≡ index_encoding n x pieces
        → index_value kept ≡ wanted_of wanted.now x pieces) }
    ensures memory { IfErr result (λ e. (n : ℕ) (x : IndexValue) (pieces : List (List (List ℕ)))
        → FitsEncoding n x pieces → bytes.now ≡ index_encoding n x pieces → e ≡ Memory) }
{
    let (root, blocks) = read_root(alloc, bytes)?;
    read_blocks(root, blocks, wanted)
}

/// How many records a zone has.
const ZONE_RECORDS: u64 = 1000;

/// How many bytes a bound has at most.
const BOUND_LENGTH: usize = 64;

/// Makes an index of the records of a stream, and gives a sink those that match, from a file that has
/// them behind a header: by the index as it is read back of its bytes, with the statistics of the
/// columns that the filter names. Says whether it was written: so it is if the bytes are known.
pub fn find_by_index<B: BufRead, R: ReadAt, S: Sink>(
    alloc: Global,
    sought: &RowFilter<'_>,
    start: Position,
    stream: &mut B,
    file: &mut R,
    sink: &mut S,
) -> Result<bool, SearchError>
    ensures kept { IfOk result (λ is_kept. (header bytes : List ℕ) → length header ≡ start.place
        → B.remaining stream.old ≡ Some bytes → is_kept ≡ true) }
    ensures found { OnOk result ((header bytes : List ℕ) → length header ≡ start.place
        → B.remaining stream.old ≡ Some bytes → R.bytes file.old ≡ Some (header ++ bytes)
        → Appends (S.contents sink.old) (S.contents sink.new) (written_of S.written_as
        (matches_record sought.now.schema.now (formula sought.now.filter.now)) start.number
        (records_under sought.now.schema.now bytes))) }
{
    indexes_find_all();
    right_indexes_have_pieces();
    let describer = RowDescriber {
        schema: sought.schema,
        bound_length: BOUND_LENGTH,
    };
    let indexed = index_rows(alloc, &describer, ZONE_RECORDS, start.place, stream)?;
    let index = Index {
        file_length: 0,
        changed: 0,
        setup: Vec::new(alloc),
        start: start.place,
        zones: indexed.zones,
    };
    let columns = sought.schema.columns.len();
    let wanted = named_columns(alloc, sought.filter, columns)?;
    let kept = match there_and_back(alloc, columns, &index, &wanted) {
        Ok(Ok(kept)) => kept,
        Ok(Err(_)) => return Err(SearchError::Memory),
        Err(WriteError::Memory) => return Err(SearchError::Memory),
        Err(WriteError::Pieces) => return Ok(false),
    };
    let zones = kept.zones.as_slice();
    let _ = find_rows(
        alloc,
        sought.schema,
        sought.filter,
        zones,
        start.number,
        file,
        sink,
    )?;
    Ok(true)
}

/// Searches for records by an index, and through all of them. The two sinks are given the same bytes.
pub fn find_both_ways<B: BufRead, C: BufRead, R: ReadAt, S: Sink>(
    alloc: Global,
    sought: &RowFilter<'_>,
    start: Position,
    stream: &mut B,
    file: &mut R,
    whole: &mut C,
    by_index: &mut S,
    by_all: &mut S,
) -> Result<bool, SearchError>
    ensures kept { IfOk result (λ is_kept. (header bytes : List ℕ) → length header ≡ start.place
        → B.remaining stream.old ≡ Some bytes → is_kept ≡ true) }
    ensures same { OnOk result ((header bytes : List ℕ) → length header ≡ start.place
        → B.remaining stream.old ≡ Some bytes → R.bytes file.old ≡ Some (header ++ bytes)
        → C.remaining whole.old ≡ Some bytes → (found : List ℕ)
        × Appends (S.contents by_index.old) (S.contents by_index.new) found
        × Appends (S.contents by_all.old) (S.contents by_all.new) found) }
{
    let is_kept = find_by_index(alloc, sought, start, stream, file, by_index)?;
    let _ = find_rest(alloc, ZONE_RECORDS, start, sought, whole, by_all)?;
    Ok(is_kept)
}
