//! The setup of a file without an index, whose columns are guessed.

ghost use Rattle.std.specs.Prelude.{◌≡◌, ◌⊎◌};
ghost use Rattle.vortex_c.specs.EncodingAnswers.{AnswersEncoding, HasAnswer};
ghost use Rattle.vortex_c.specs.Setups.{IsGuessedText, SaysWhyNotGuessed};

use crate::giving::give;
use crate::search_faults::SearchFault;
use crate::status::{BAD_BYTES, NO_MEMORY};
use setup_guessing::guess_setup_text;
use std::alloc::Global;

/// The text of a setup, by which bytes are told that are not as they are to be.
const SETUP: u64 = 2;

/// The setup of a file without an index, as a text: as the one that is given, but for columns that are guessed
/// from the first records of `text`, with which the file begins, or which is all of it if `is_all`. They are
/// guessed if none is given, or if the header names each that is given and more. `start` is how many bytes the
/// header has, and 0 if there is none, or no record that is whole for certain.
///
/// - `BUFFER_TOO_SMALL`: `count` says how many bytes the text has. `start` is written all the same.
/// - `BAD_BYTES`: `setup` is the text of no setup, or the byte between two fields may not be one.
/// - `NO_MEMORY`: `fault` is not written.
#[unsafe(no_mangle)]
pub extern "C" fn doqallin_guess_setup(
    alloc: Global,
    setup: &[u8],
    text: &[u8],
    has_header: bool,
    is_all: bool,
    buffer: &mut [u8],
    count: &mut usize,
    start: &mut u64,
    fault: &mut SearchFault,
) -> u32
    ensures answer { AnswersEncoding (λ written.
        IsGuessedText setup.now text.now has_header is_all written start.new)
        buffer.old buffer.new count.old count.new result }
    ensures refused { (HasAnswer result) ⊎ SaysWhyNotGuessed setup.now fault.old fault.new result }

    // What is not said to be written stays.
    ensures kept_start { (HasAnswer result) ⊎ (start.new ≡ start.old) }
    ensures kept_fault { HasAnswer result → fault.new ≡ fault.old }
{
    match guess_setup_text(alloc, setup, text, has_header, is_all) {
        Ok(Some(guessed)) => {
            *start = guessed.start as u64;
            give(guessed.text.as_bytes(), buffer, count)
        }
        Ok(None) => {
            *fault = SearchFault {
                place: 0,
                column: SETUP,
                reason: 0,
            };
            BAD_BYTES
        }
        Err(_) => NO_MEMORY,
    }
}
