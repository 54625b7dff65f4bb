// SPDX-License-Identifier: Apache-2.0
// SPDX-FileCopyrightText: Copyright the Vortex contributors; ported to Rattle and changed
//! Any call of the library, by a line of text, for callers from C: the static library
//! `libdoqallin_call`.
//!
//! It stands beside `vortex_c`, since it holds the whole language of the worked cases.
#![tactic(auto)]

ghost use Rattle.std.specs.Prelude.{◌≡◌, ◌≢◌, ◌⊎◌, List, ℕ, IfOk, IsUtf8, ⊤};
ghost use Rattle.std.specs.String.{string_bytes};
ghost use Rattle.vortex_call.specs.Answers.{AnswersLine, IsTold};

use std::alloc::{AllocError, Global};

/// The answer is written.
pub const GIVEN: u32 = 0;

/// An allocation was refused.
pub const NO_MEMORY: u32 = 2;

/// The buffer is too small: the length that is needed is written, and nothing else.
pub const BUFFER_TOO_SMALL: u32 = 3;

/// How deep a line of `doqallin_call` may nest.
pub const DEPTH: usize = 32;

/// The answer to a line, as UTF-8, written to the buffer.
///
/// A line names a call and what it is given, as the worked cases in crates/scalar_cases do. A
/// refusal is an answer, as `CannotCast`, and so is `bad line`, to bytes that are no line. No
/// clause says which answer comes: the stored cases are run.
///
/// The answer is `TooDeep` if more than `DEPTH` brackets nest in a type or a value, or connectives
/// and parentheses in a filter. So on a thread of 128 kilobytes no line ends the process: that is
/// tested, and no contract speaks of stack.
///
/// - `BUFFER_TOO_SMALL`: the buffer is too small. `count` says how many bytes the whole answer has.
///   No clause says that the next call has the same answer.
/// - `NO_MEMORY`: there was no memory to read the line or to write the answer.
#[unsafe(no_mangle)]
pub extern "C" fn doqallin_call(
    alloc: Global,
    line: &[u8],
    buffer: &mut [u8],
    count: &mut usize,
) -> u32
    ensures { AnswersLine buffer.old buffer.new count.old count.new result }
{
    doqallin_call_within(alloc, line, DEPTH, buffer, count)
}

/// As `doqallin_call`, of lines that may nest as deep as the caller says.
#[unsafe(no_mangle)]
pub extern "C" fn doqallin_call_within(
    alloc: Global,
    line: &[u8],
    depth: usize,
    buffer: &mut [u8],
    count: &mut usize,
) -> u32
    ensures { AnswersLine buffer.old buffer.new count.old count.new result }
{
    answer_into(alloc, &WorkedCases { depth }, line, buffer, count)
}

/// What answers lines.
trait Answerer {
    // The text is an answer to the line.
    ghost IsAnswer: { Self → List ℕ → List ℕ → Type 0 };

    /// The answer to a line.
    fn answer(&self, alloc: Global, line: &[u8]) -> Result<String, AllocError>
        ensures { IfOk result (λ text. IsAnswer self.now line.now (string_bytes text)) };
}

/// The language of the worked cases, in lines that may nest so deep.
#[derive(Clone, Copy)]
struct WorkedCases {
    depth: usize,
}

impl Answerer for WorkedCases {
    // Which answer comes, no clause says.
    ghost IsAnswer = { λ s line text. ⊤ };

    fn answer(&self, alloc: Global, line: &[u8]) -> Result<String, AllocError> {
        worked_cases::call(alloc, self.depth, line)
    }
}

/// The answer to a line, whatever answers it, written to the buffer, and its length.
///
/// The length is that of the whole answer, also where the buffer is too small for it.
fn answer_into<A: Answerer>(
    alloc: Global,
    answerer: &A,
    line: &[u8],
    buffer: &mut [u8],
    count: &mut usize,
) -> u32
    ensures statuses { (result ≡ GIVEN) ⊎ ((result ≡ NO_MEMORY) ⊎ (result ≡ BUFFER_TOO_SMALL)) }
    ensures told { result ≢ NO_MEMORY → (answer : List ℕ)
        × A.IsAnswer answerer.now line.now answer × IsUtf8 answer
        × IsTold answer buffer.old buffer.new count.new result }
    ensures kept_buffer { result ≡ NO_MEMORY → buffer.new ≡ buffer.old }
    ensures kept_count { result ≡ NO_MEMORY → count.new ≡ count.old }
{
    match answerer.answer(alloc, line) {
        Ok(answer) => give(answer.as_str().as_bytes(), buffer, count),
        Err(_) => NO_MEMORY,
    }
}

/// Writes the answer to the buffer, and its length; only the length if the buffer is too small.
fn give(answer: &[u8], buffer: &mut [u8], count: &mut usize) -> u32
    ensures statuses { (result ≡ GIVEN) ⊎ (result ≡ BUFFER_TOO_SMALL) }
    ensures told { IsTold answer.now buffer.old buffer.new count.new result }
{
    let needed = answer.len();
    *count = needed;
    if needed <= buffer.len() {
        buffer[..needed].copy_from_slice(answer);
        GIVEN
    } else {
        BUFFER_TOO_SMALL
    }
}
