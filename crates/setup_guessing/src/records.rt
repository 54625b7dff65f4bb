//! The first records of a file, of which the beginning is at hand.

ghost use Rattle.std.specs.Prelude.{IfNone, IfSome};
ghost use Rattle.setup_guessing.specs.Records.{HasNoNext, IsFront, IsNext};

use csv_records::{Delimiter, cut_record};

/// So many records of a text, and what follows them. They are fewer only where the text has no more. Where
/// the file goes on behind the text, without `is_all`, its last record is left, since it may be cut.
pub(crate) fn first_records(
    delimiter: Delimiter,
    count: u64,
    is_all: bool,
    text: &[u8],
) -> (&[u8], &[u8])
    ensures { IsFront delimiter.byte count is_all text.now result.0.now result.1.now }
{
    let mut end = 0;
    let mut taken = 0;
    while taken < count {
        match next_length(delimiter, is_all, &text[end..]) {
            Some(length) => {
                end += length;
                taken += 1;
            }
            None => return text.split_at(end),
        }
    }
    text.split_at(end)
}

/// How many bytes the first record of a text has, if there is one, and it is not cut.
fn next_length(delimiter: Delimiter, is_all: bool, text: &[u8]) -> Option<usize>
    ensures some { IfSome result (IsNext delimiter.byte is_all text.now) }
    ensures none { IfNone result (HasNoNext delimiter.byte is_all text.now) }
{
    if text.is_empty() {
        return None;
    }
    let (line, after) = cut_record(delimiter, text);
    if !is_all && after.is_empty() {
        None
    } else {
        Some(line.len())
    }
}
