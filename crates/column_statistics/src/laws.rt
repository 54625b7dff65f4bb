//! The law of statistics of columns as bytes, as the contract of a function that does nothing.

ghost use Rattle.column_statistics.specs.Words.{EncodingsStayRight};

use statistics_bytes::laws::encodings_tell_statistics;

/// What `column_encoding` writes is right for the column's cells, what `merged_encoding` makes of
/// right pieces is right for those of both, and what is read of right bytes is right: so by it zones
/// may be skipped.
pub fn encodings_stay_right()
    ensures { EncodingsStayRight }
{
    encodings_tell_statistics();
}
