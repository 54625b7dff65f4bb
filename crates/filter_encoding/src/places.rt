//! Counts and places, as eight bytes.

ghost use Rattle.std.specs.Prelude.{◌≡◌, ◌++◌, ◌<◌, ◌≤◌, MatchOption, drop, length};
ghost use Rattle.filter_encoding.specs.Words.{AreBytes, Fits, Reads, Writes, count_bytes, left};

use crate::error::FilterEncodingError;
use crate::reader::{FilterDecodeError, Reader};
use crate::writing::append_all;

/// Does nothing: its contract says that they are bytes.
fn are_bytes(bytes: &[u8])
    ensures { AreBytes bytes.now }
{
    let _ = bytes;
}

/// The number in the first eight bytes. `None` if there are fewer.
#[tactic(auto, using(statistics_bytes::proofs::CountBytes::counted))]
fn number_in(bytes: &[u8]) -> Option<u64>
    ensures { MatchOption result (length bytes.now < 8)
        (λ n. (8 ≤ length bytes.now) × Fits n × (bytes.now ≡ count_bytes n ++ drop 8 bytes.now)) }
{
    are_bytes(bytes);
    match bytes {
        [a, b, c, d, e, f, g, h, ..] => {
            Some(u64::from_be_bytes([*a, *b, *c, *d, *e, *f, *g, *h]))
        }
        _ => None,
    }
}

/// The next count or place.
pub(crate) fn read_place(reader: &mut Reader<'_>) -> Result<usize, FilterDecodeError>
    ensures { Reads count_bytes Fits (λ n. n) result (left reader.old) (left reader.new) }
{
    are_bytes(reader.rest);
    match number_in(reader.rest) {
        Some(number) => {
            reader.advance(8);
            Ok(number as usize)
        }
        None => {
            reader.rest = &[];
            Err(FilterDecodeError::Bad)
        }
    }
}

/// Appends a count or a place.
#[tactic(auto, using(statistics_bytes::proofs::CountBytes::counted))]
pub(crate) fn append_place(place: usize, out: &mut Vec<u8>) -> Result<(), FilterEncodingError>
    ensures { Writes (Fits place) (count_bytes place) result out.old.items out.new.items }
{
    append_all(&(place as u64).to_be_bytes(), out)
}
