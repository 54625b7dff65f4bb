//! One line: its call's answer, compared with the answer that stands in it.

use crate::lines::push_number;
use case_lines::{Line, LineAnswer, Run};
use std::alloc::{AllocError, Global};

/// The answer to a line, and the answer that stands in the line, if there is one.
#[derive(Drop)]
struct AnsweredLine<'a> {
    answer: LineAnswer,
    expected: Option<&'a [u8]>,
}

/// Answers a line, which need not be UTF-8, by the crate that has a call of its name.
fn answer_line<'a>(run: Run<'a>, line: &'a [u8]) -> Result<AnsweredLine<'a>, AllocError> {
    let mut line = Line::new(run, line);
    scalar_calls::answer(&mut line);
    statistics_calls::answer(&mut line);
    filter_calls::answer(&mut line);
    logical_calls::answer(&mut line);
    membership_calls::answer(&mut line);
    pattern_calls::answer(&mut line);
    constant_calls::answer(&mut line);
    let expected = line.expected();
    Ok(AnsweredLine {
        answer: line.into_answer()?,
        expected,
    })
}

/// The written answer of a line's call, `bad line` if the line is not in the language, or `TooDeep` if
/// more than `depth` brackets nest in a type or a value, or connectives and parentheses in a filter.
pub fn call(alloc: Global, depth: usize, line: &[u8]) -> Result<String, AllocError> {
    Ok(answer_line(Run::within(alloc, depth), line)?.answer.text)
}

/// How a line comes out.
#[derive(Clone, Copy)]
pub enum Outcome {
    /// It is empty, a remark, or has no answer to compare.
    Passed,
    /// The call answers what stands in the line.
    Right,
    /// The call answers otherwise, or the line is not in the language.
    Wrong,
}

/// Runs a line. A case without an answer is written to `out` with its answer after it, and a wrong
/// case as its line number and the answer that came.
pub fn run_line<'a>(
    run: Run<'a>,
    out: &mut Vec<u8>,
    number: u64,
    line: &'a [u8],
) -> Result<Outcome, AllocError> {
    if asks_nothing(line) {
        return Ok(Outcome::Passed);
    }
    let AnsweredLine {
        answer: LineAnswer { text, is_bad },
        expected,
    } = answer_line(run, line)?;
    match expected {
        None if !is_bad => {
            push_with_answer(out, line, &text)?;
            Ok(Outcome::Passed)
        }
        Some(expected) if expected == text.as_bytes() => Ok(Outcome::Right),
        _ => {
            push_wrong(out, number, &text)?;
            Ok(Outcome::Wrong)
        }
    }
}

/// Whether the line is empty or a remark; spaces may come first.
fn asks_nothing(line: &[u8]) -> bool {
    match line.iter().find(|byte| **byte != b' ') {
        Some(byte) => *byte == b'#',
        None => true,
    }
}

fn push_with_answer(out: &mut Vec<u8>, line: &[u8], answer: &str) -> Result<(), AllocError> {
    out.extend_from_slice(line)?;
    out.extend_from_slice(b" => ")?;
    out.extend_from_slice(answer.as_bytes())?;
    out.extend_from_slice(b"\n")
}

fn push_wrong(out: &mut Vec<u8>, number: u64, answer: &str) -> Result<(), AllocError> {
    out.extend_from_slice(b"line ")?;
    push_number(out, number)?;
    out.extend_from_slice(b": ")?;
    out.extend_from_slice(answer.as_bytes())?;
    out.extend_from_slice(b"\n")
}
