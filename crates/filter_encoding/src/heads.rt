//! The first byte of a filter's encoding: which kind of filter it is.

ghost use Rattle.std.specs.Prelude.{◌≡◌, ◌≢◌, ◌∷◌, MatchOption, MatchResult, false, true};
ghost use Rattle.filter_encoding.specs.declared.heads.Head.{Head};
ghost use Rattle.filter_encoding.specs.Words.{IsNodeEncoding, IsStuck, MayBegin, head_byte, left, operator_byte};
ghost use Rattle.filter_encoding.specs.Words.{truth_byte};

use crate::reader::{FilterDecodeError, Reader};
use vortex_filter::{CompareOperator, Truth};

/// A kind of filter.
#[derive(Clone, Copy)]
pub(crate) enum Head {
    Constant(Truth),
    Compare(CompareOperator),
    IsNull,
    In,
    Between,
    StartsWith,
    Like,
    And,
    Or,
    Not,
}

/// The byte of a constant.
fn truth_byte(truth: Truth) -> u8
    ensures { result ≡ truth_byte truth }
{
    match truth {
        Truth::False => 0,
        Truth::Unknown => 1,
        Truth::True => 2,
    }
}

/// The byte of a comparison.
fn operator_byte(operator: CompareOperator) -> u8
    ensures { result ≡ operator_byte operator }
{
    match operator {
        CompareOperator::Eq => 3,
        CompareOperator::NotEq => 4,
        CompareOperator::Gt => 5,
        CompareOperator::Gte => 6,
        CompareOperator::Lt => 7,
        CompareOperator::Lte => 8,
    }
}

impl Head {
    /// The first byte of such a filter.
    pub(crate) fn byte(self) -> u8
        ensures { result ≡ head_byte self }
    {
        match self {
            Head::Constant(truth) => truth_byte(truth),
            Head::Compare(operator) => operator_byte(operator),
            Head::IsNull => 9,
            Head::In => 10,
            Head::Between => 11,
            Head::StartsWith => 12,
            Head::Like => 16,
            Head::And => 13,
            Head::Or => 14,
            Head::Not => 15,
        }
    }

    /// The kind with this byte. `None` if there is none.
    fn from_byte(byte: u8) -> Option<Head>
        ensures { MatchOption result ((head : Head) → head_byte head ≢ byte)
            (λ head. head_byte head ≡ byte) }
    {
        match byte {
            0 => Some(Head::Constant(Truth::False)),
            1 => Some(Head::Constant(Truth::Unknown)),
            2 => Some(Head::Constant(Truth::True)),
            3 => Some(Head::Compare(CompareOperator::Eq)),
            4 => Some(Head::Compare(CompareOperator::NotEq)),
            5 => Some(Head::Compare(CompareOperator::Gt)),
            6 => Some(Head::Compare(CompareOperator::Gte)),
            7 => Some(Head::Compare(CompareOperator::Lt)),
            8 => Some(Head::Compare(CompareOperator::Lte)),
            9 => Some(Head::IsNull),
            10 => Some(Head::In),
            11 => Some(Head::Between),
            12 => Some(Head::StartsWith),
            13 => Some(Head::And),
            14 => Some(Head::Or),
            15 => Some(Head::Not),
            16 => Some(Head::Like),
            _ => None,
        }
    }

    /// Whether such a filter may stand where so many connectives may still nest.
    fn is_within(self, depth: usize) -> bool
        ensures within { result ≡ true → MayBegin depth self }
        ensures deep { result ≡ false → ¬ (MayBegin depth self) }
    {
        match self {
            Head::And | Head::Or | Head::Not => depth > 0,
            _ => true,
        }
    }
}

/// The kind of the next filter, in which at most so many connectives nest.
pub(crate) fn read_head(depth: usize, reader: &mut Reader<'_>) -> Result<Head, FilterDecodeError>
    ensures { MatchResult result
        (λ head. (left reader.old ≡ head_byte head ∷ left reader.new) × MayBegin depth head)
        (λ e. IsStuck (IsNodeEncoding depth) (left reader.old) (left reader.new)) }
{
    let Some(byte) = reader.first() else {
        return Err(FilterDecodeError::Bad);
    };
    let Some(head) = Head::from_byte(byte) else {
        return Err(FilterDecodeError::Bad);
    };
    if head.is_within(depth) {
        reader.advance(1);
        Ok(head)
    } else {
        Err(FilterDecodeError::Bad)
    }
}
