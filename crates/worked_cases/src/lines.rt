//! Runs all lines of an input, and counts the wrong ones.

use crate::cases::{Outcome, run_line};
use case_lines::Run;
use itoa::Buffer;
use rows::first_line;
use std::alloc::AllocError;

/// The outcome of all lines.
#[derive(Drop)]
pub struct Report {
    /// What the program prints: a line for each wrong case and each case without an answer, and then
    /// the totals.
    pub text: Vec<u8>,
    /// Whether no case is wrong.
    pub is_right: bool,
}

#[derive(Clone, Copy)]
struct Totals {
    /// How many lines had an answer to compare, or were bad.
    cases: u64,
    /// How many of these were wrong.
    wrong: u64,
}

impl Totals {
    /// The totals with one more line.
    fn with(self, outcome: Outcome) -> Totals {
        let Totals { cases, wrong } = self;
        match outcome {
            Outcome::Passed => self,
            Outcome::Right => Totals {
                cases: cases.saturating_add(1),
                wrong,
            },
            Outcome::Wrong => Totals {
                cases: cases.saturating_add(1),
                wrong: wrong.saturating_add(1),
            },
        }
    }
}

/// Runs all lines of an input. `AllocError` if there is no memory to read a line, to answer it or to
/// write the report; not if a call answers `OutOfMemory`.
pub fn run_lines<'a>(run: Run<'a>, input: &'a [u8]) -> Result<Report, AllocError> {
    let mut text = Vec::new(run.alloc());
    let mut totals = Totals { cases: 0, wrong: 0 };
    let mut number = 0u64;
    let mut rest = input;
    while !rest.is_empty() {
        let (line, after) = first_line(rest);
        number = number.saturating_add(1);
        totals = totals.with(run_line(run, &mut text, number, line)?);
        rest = after;
    }
    push_totals(&mut text, totals)?;
    Ok(Report {
        text,
        is_right: totals.wrong == 0,
    })
}

/// Writes the totals, unless there was no case.
fn push_totals(text: &mut Vec<u8>, totals: Totals) -> Result<(), AllocError> {
    if totals.cases == 0 {
        return Ok(());
    }
    push_number(text, totals.cases)?;
    text.extend_from_slice(b" cases, ")?;
    push_number(text, totals.wrong)?;
    text.extend_from_slice(b" wrong\n")
}

pub fn push_number(text: &mut Vec<u8>, number: u64) -> Result<(), AllocError> {
    let mut buffer = Buffer::new();
    text.extend_from_slice(buffer.format(number).as_bytes())
}
