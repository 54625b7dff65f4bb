//! The laws of the bytes of statistics: what holds of all of them, whatever calls gave them.
//!
//! These functions do nothing when they run. The contract of each is a law over the definitions in
//! `specs/`, and its proof is the law's proof.

ghost use Rattle.statistics_bytes.specs.Words.{EncodingsAreApart, EncodingsTellStatistics};

use vortex_row::laws::{keys_are_apart, values_have_no_typed};

/// Let the bounds of one of two statistics have no variant's child. What begins with the encodings
/// of both has statistics that say the same, whatever the types of their bounds, and one rest. So
/// statistics have one encoding, and no encoding begins another.
pub fn encodings_are_apart()
    ensures { EncodingsAreApart }
{
    keys_are_apart();
}

/// Statistics of one type that have one encoding are the same: so whoever reads the bytes as of the
/// type that they were written of reads just what was written.
pub fn encodings_tell_statistics()
    ensures { EncodingsTellStatistics }
{
    keys_are_apart();
    values_have_no_typed();
}
