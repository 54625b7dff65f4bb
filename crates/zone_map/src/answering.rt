//! What is wanted of the records that match is written or counted: of those of an index, and of those that are new.

ghost use Rattle.std.specs.Prelude.{◌≡◌, Err, IfErr, OnOk};
ghost use Rattle.zone_index.specs.Asking.{Asks};
ghost use Rattle.zone_index.specs.Zones.{IsIndexOf, IsOfZone, IsPartOfZone};
ghost use Rattle.zone_map.specs.Answers.{AnswersCountInAll, AnswersFindInAll, AnswersFindWhole, first_number};

use crate::grown::end_of;
use std::alloc::Global;
use std::io::BufRead;
use zone_index::{
    Index, Matcher, Position, ReadAt, SearchError, Sink, Tally, count, count_rest, find, find_rest,
    number_after,
};

/// How many records of a stream are in memory at a time.
pub const PIECE: u64 = 1000;

/// What was found.
#[derive(Clone, Copy)]
pub struct Found {
    /// What became of the zones.
    pub tally: Tally,
    /// How many rows match, as far as 64 bits count.
    pub rows: u64,
}

/// The first record that is a row, if so many bytes of a header stand before it. A header is the first
/// record of its file.
pub fn first_row(start: u64) -> Position
    ensures place { result.place ≡ start }
    ensures number { result.number ≡ first_number start }
{
    Position {
        place: start,
        number: if start == 0 { 1 } else { 2 },
    }
}

/// Gives a sink the records that match, and has it pass on what was written, after an error, too: those of the
/// zones of an index, and behind them those that another reader has left, which are new.
pub fn find_indexed<R: ReadAt, B: BufRead, M: Matcher, S: Sink>(
    alloc: Global,
    index: &Index,
    matcher: &M,
    reader: &mut R,
    new: &mut B,
    sink: &mut S,
) -> Result<Found, SearchError>
    ensures answer { AnswersFindInAll
        (IsIndexOf (M.delimiter matcher.now) (M.has_row matcher.now) (M.Describes matcher.now))
        (M.Refuses matcher.now) (M.is_refused matcher.now) (M.delimiter matcher.now) (M.matches matcher.now)
        (M.decides matcher.now) S.written_as index.now.start index.now.zones.items
        (R.bytes reader.old) (B.remaining new.old) (S.contents sink.old) (S.contents sink.new) result }
    ensures kept { R.bytes reader.new ≡ R.bytes reader.old }
    // All that the reader was asked for stands in zones that are not skipped.
    ensures asks { Asks (IsOfZone (M.decides matcher.now) index.now.zones.items)
        (R.asked reader.old) (R.asked reader.new) }
{
    let found = find_both(alloc, index, matcher, reader, new, sink);
    flushed(found, sink.flush())
}

/// The same, and passes nothing on after an error.
fn find_both<R: ReadAt, B: BufRead, M: Matcher, S: Sink>(
    alloc: Global,
    index: &Index,
    matcher: &M,
    reader: &mut R,
    new: &mut B,
    sink: &mut S,
) -> Result<Found, SearchError>
    ensures answer { AnswersFindInAll
        (IsIndexOf (M.delimiter matcher.now) (M.has_row matcher.now) (M.Describes matcher.now))
        (M.Refuses matcher.now) (M.is_refused matcher.now) (M.delimiter matcher.now) (M.matches matcher.now)
        (M.decides matcher.now) S.written_as index.now.start index.now.zones.items
        (R.bytes reader.old) (B.remaining new.old) (S.contents sink.old) (S.contents sink.new) result }
    ensures kept { R.bytes reader.new ≡ R.bytes reader.old }
    // All that the reader was asked for stands in zones that are not skipped.
    ensures asks { Asks (IsOfZone (M.decides matcher.now) index.now.zones.items)
        (R.asked reader.old) (R.asked reader.new) }
{
    let first = first_row(index.start).number;
    let tally = find(alloc, &index.zones, first, matcher, reader, sink)?;
    let start = Position {
        place: end_of(index.start, &index.zones),
        number: number_after(first, &index.zones),
    };
    let more = find_rest(alloc, PIECE, start, matcher, new, sink)?;
    Ok(Found {
        tally,
        rows: tally.found.saturating_add(more),
    })
}

/// Counts the records that match: those of the zones of an index, and those that another reader has left,
/// which are new.
pub fn count_indexed<R: ReadAt, B: BufRead, M: Matcher>(
    alloc: Global,
    index: &Index,
    matcher: &M,
    reader: &mut R,
    new: &mut B,
) -> Result<u64, SearchError>
    ensures answer { AnswersCountInAll
        (IsIndexOf (M.delimiter matcher.now) (M.has_row matcher.now) (M.Describes matcher.now))
        (M.Refuses matcher.now) (M.is_refused matcher.now) (M.delimiter matcher.now) (M.matches matcher.now)
        (M.decides matcher.now) index.now.start index.now.zones.items
        (R.bytes reader.old) (B.remaining new.old) result }
    ensures kept { R.bytes reader.new ≡ R.bytes reader.old }
    // All that the reader was asked for stands in zones whose statistics decide nothing.
    ensures asks { Asks (IsPartOfZone (M.decides matcher.now) index.now.zones.items)
        (R.asked reader.old) (R.asked reader.new) }
{
    let known = count(alloc, &index.zones, matcher, reader)?;
    let place = end_of(index.start, &index.zones);
    let more = count_rest(alloc, PIECE, place, matcher, new)?;
    Ok(known.saturating_add(more))
}

/// Gives a sink the records of a stream that match, and has it pass on what was written, after an error, too. Says
/// how many they are. The header has so many bytes.
pub fn find_whole<B: BufRead, M: Matcher, S: Sink>(
    alloc: Global,
    matcher: &M,
    start: u64,
    reader: &mut B,
    sink: &mut S,
) -> Result<u64, SearchError>
    ensures answer { AnswersFindWhole
        (M.Refuses matcher.now) (M.is_refused matcher.now) (M.delimiter matcher.now) (M.matches matcher.now)
        S.written_as start (B.remaining reader.old) (S.contents sink.old) (S.contents sink.new) result }
{
    let found = find_rest(alloc, PIECE, first_row(start), matcher, reader, sink);
    flushed(found, sink.flush())
}

/// What was done, once the output is flushed.
pub fn flushed<T: Drop>(
    done: Result<T, SearchError>,
    flush: Result<(), SearchError>,
) -> Result<T, SearchError>
    ensures done { OnOk flush (result ≡ done) }
    ensures failed { IfErr flush (λ fault. result ≡ Err fault) }
{
    flush?;
    done
}
