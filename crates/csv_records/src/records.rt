//! Records are cut from the front of a text.

ghost use Rattle.std.specs.Prelude.{◌≡◌, ◌∷◌, ◌++◌, ◌<◌, ◌≤◌, [], IfNone, IfSome, drop, length, take};
ghost use Rattle.csv_records.specs.Words.{EndsRecord, HasNoPlainFeed, records_of, rows_of};

use crate::delimiter::Delimiter;
use crate::states::{RecordState, state_after_line};
use memchr::{memchr, memchr2};

/// The first record, with its line feed, and what follows.
#[tactic(auto, using(crate::proofs::Cutting::cutting))]
pub fn cut_record(delimiter: Delimiter, text: &[u8]) -> (&[u8], &[u8])
    requires { 0 < length text.now }
    ensures records { records_of delimiter.byte text.now ≡
        result.0.now ∷ records_of delimiter.byte result.1.now }
    // The rows are those of the record and of what follows.
    ensures rows { rows_of delimiter.byte text.now ≡
        rows_of delimiter.byte result.0.now ++ rows_of delimiter.byte result.1.now }
    ensures parts { text.now ≡ result.0.now ++ result.1.now }
    ensures shorter { length result.1.now < length text.now }
{
    if let Some(end) = plain_end(delimiter, text) {
        return (&text[..end], &text[end..]);
    }
    match record_end(delimiter, text) {
        Some(end) => (&text[..end], &text[end..]),
        None => (text, &[]),
    }
}

/// The offset behind the line feed that ends the first record.
fn record_end(delimiter: Delimiter, text: &[u8]) -> Option<usize>
    ensures within { IfSome result (λ end. (0 < end) × (end ≤ length text.now)) }
    ensures cut { IfSome result (λ end. records_of delimiter.byte text.now ≡
        take end text.now ∷ records_of delimiter.byte (drop end text.now)) }
    ensures rows { IfSome result (λ end. rows_of delimiter.byte text.now ≡
        rows_of delimiter.byte (take end text.now) ++ rows_of delimiter.byte (drop end text.now)) }
    ensures none { IfNone result (0 < length text.now → records_of delimiter.byte text.now ≡ text.now ∷ []) }
{
    let mut state = RecordState::StartRecord;
    let mut end = 0;
    while let Some(feed) = memchr(b'\n', &text[end..]) {
        let next = end + feed + 1;
        state = state_after_line(delimiter, state, &text[end..next]);
        if let RecordState::StartRecord = state {
            return Some(next);
        }
        end = next;
    }
    None
}

/// The offset behind the first line feed, if no quote stands before it: the first record ends
/// there.
pub fn plain_end(delimiter: Delimiter, text: &[u8]) -> Option<usize>
    ensures within { IfSome result (λ end. (0 < end) × (end ≤ length text.now)) }
    // Whatever stands behind it: it ends with its line feed, and another record may start there.
    ensures ends { IfSome result (λ end. EndsRecord delimiter.byte (take end text.now)) }
    ensures cut { IfSome result (λ end. records_of delimiter.byte text.now ≡
        take end text.now ∷ records_of delimiter.byte (drop end text.now)) }
    ensures rows { IfSome result (λ end. rows_of delimiter.byte text.now ≡
        rows_of delimiter.byte (take end text.now) ++ rows_of delimiter.byte (drop end text.now)) }
    ensures none { IfNone result (HasNoPlainFeed text.now) }
{
    let place = memchr2(b'\n', b'"', text)?;
    if text[place] == b'\n' {
        Some(place + 1)
    } else {
        None
    }
}
