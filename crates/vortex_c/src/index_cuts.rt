//! Where a text is cut into zones of so many records.

ghost use Rattle.std.specs.Prelude.{◌≡◌, ◌∷◌, ◌<◌, ◌≤◌, ◌*◌, ℕ, IfNone, IfSome, MatchBool, drop, length, take};
ghost use Rattle.vortex_c.specs.IndexWords.{AreWhole, EndsRecord, HasNoWhole, HasNoZone, IsZoneCut, StartRecord};
ghost use Rattle.vortex_c.specs.IndexWords.{records_of};

use csv_records::{Delimiter, RecordState, cut_record, plain_end, state_after_line};

/// How many bytes of a text are taken into zones of so many records: those of the full zones that it begins
/// with, and all where the file ends with it.
pub(crate) fn taken_length(delimiter: Delimiter, size: u64, text: &[u8], is_end: bool) -> usize
    requires { 0 < size }
    ensures within { result ≤ length text.now }
    ensures cut { IsZoneCut delimiter.byte size text.now is_end (take result text.now) (drop result text.now) }
{
    if is_end {
        text.len()
    } else {
        full_length(delimiter, size, text)
    }
}

/// How many bytes the zones have that a text begins with, each of so many whole records.
fn full_length(delimiter: Delimiter, size: u64, text: &[u8]) -> usize
    requires { 0 < size }
    ensures within { result ≤ length text.now }
    ensures full { (zones : ℕ) × AreWhole delimiter.byte StartRecord (zones * size) (take result text.now) }
    ensures left { HasNoZone delimiter.byte size (drop result text.now) }
{
    let mut end = 0;
    while let Some(length) = zone_length(delimiter, size, &text[end..]) {
        end += length;
    }
    end
}

/// How many bytes the first records of a text have, so many, if these are whole.
fn zone_length(delimiter: Delimiter, size: u64, text: &[u8]) -> Option<usize>
    requires { 0 < size }
    ensures within { IfSome result (λ end. (0 < end) × (end ≤ length text.now)) }
    ensures whole { IfSome result (λ end. AreWhole delimiter.byte StartRecord size (take end text.now)) }
    ensures none { IfNone result (HasNoZone delimiter.byte size text.now) }
{
    let mut end = 0;
    let mut count = 0;
    while count < size {
        match record_length(delimiter, &text[end..]) {
            Some(length) => {
                end += length;
                count += 1;
            }
            None => return None,
        }
    }
    Some(end)
}

/// How many bytes the first record of a text has, if it is whole: behind its line feed another may start.
fn record_length(delimiter: Delimiter, text: &[u8]) -> Option<usize>
    ensures within { IfSome result (λ end. (0 < end) × (end ≤ length text.now)) }
    ensures ends { IfSome result (λ end. EndsRecord delimiter.byte (take end text.now)) }
    ensures cut { IfSome result (λ end. records_of delimiter.byte text.now ≡
        take end text.now ∷ records_of delimiter.byte (drop end text.now)) }
    ensures none { IfNone result (HasNoWhole delimiter.byte text.now) }
{
    match plain_end(delimiter, text) {
        Some(end) => Some(end),
        None => quoted_length(delimiter, text),
    }
}

/// The same of a record that may have quotes.
fn quoted_length(delimiter: Delimiter, text: &[u8]) -> Option<usize>
    ensures within { IfSome result (λ end. (0 < end) × (end ≤ length text.now)) }
    ensures ends { IfSome result (λ end. EndsRecord delimiter.byte (take end text.now)) }
    ensures cut { IfSome result (λ end. records_of delimiter.byte text.now ≡
        take end text.now ∷ records_of delimiter.byte (drop end text.now)) }
    ensures none { IfNone result (HasNoWhole delimiter.byte text.now) }
{
    if text.is_empty() {
        return None;
    }
    let (line, _) = cut_record(delimiter, text);
    if ends_record(delimiter, line) {
        Some(line.len())
    } else {
        None
    }
}

/// Whether a text ends with a line feed behind which a record may start.
fn ends_record(delimiter: Delimiter, text: &[u8]) -> bool
    ensures { MatchBool result (EndsRecord delimiter.byte text.now) (¬ (EndsRecord delimiter.byte text.now)) }
{
    match text {
        [_, ..] if text[text.len() - 1] == b'\n' => {
            match state_after_line(delimiter, RecordState::StartRecord, text) {
                RecordState::StartRecord => true,
                RecordState::AfterCr
                | RecordState::StartField
                | RecordState::InField
                | RecordState::InQuoted
                | RecordState::AfterQuote => false,
            }
        }
        _ => false,
    }
}
