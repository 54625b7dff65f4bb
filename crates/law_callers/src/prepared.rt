//! Prepared filters, compared by their bytes, and read back from them.

ghost use Rattle.std.specs.Prelude.{◌≡◌, ◌↔◌, ℕ, IfOk, map, true};
ghost use Rattle.vortex_filter.specs.FilterLiterals.{AreValid, exactly_of, literals_of};
ghost use Rattle.filter_encoding.specs.Answers.{ReadsAs};
ghost use Rattle.filter_encoding.specs.Encoding.{CanBeWritten, HasEncoding, Prepared, encoding, prepared};

use filter_encoding::laws::encodings_are_apart;
use filter_encoding::{FilterEncodingError, PreparedFilter, append_filter, read_filter};
use std::alloc::Global;
use vortex_filter::laws::formulas_say_literals;

/// Whether two prepared filters, of which these are the bytes, say the same: the same types of
/// columns and the same filter.
pub fn are_same(one: &[u8], other: &[u8]) -> bool
    ensures { (m n : ℕ) (p q : Prepared) → HasEncoding m p → HasEncoding n q
        → one.now ≡ encoding p → other.now ≡ encoding q
        → (result ≡ true) ↔ (p ≡ q) }
{
    encodings_are_apart();
    one == other
}

/// A prepared filter that is written as bytes and read back. If it can be written and its literals
/// are valid, what is read says the same. The literals come back as they were: each with its type
/// and its raw value, the `PType` of an integer included.
pub fn there_and_back(
    alloc: Global,
    depth: usize,
    given: &PreparedFilter,
) -> Result<PreparedFilter, FilterEncodingError>
    ensures same { CanBeWritten depth (prepared given.now) → AreValid (literals_of given.now.filter)
        → ReadsAs (prepared given.now) result }
    ensures literals { AreValid (literals_of given.now.filter) → IfOk result (λ kept.
        map exactly_of (literals_of kept.filter) ≡ map exactly_of (literals_of given.now.filter)) }
{
    formulas_say_literals();
    let mut bytes = Vec::new(alloc);
    append_filter(&given.filter, &given.columns, depth, &mut bytes)?;
    read_filter(alloc, depth, &bytes)
}
