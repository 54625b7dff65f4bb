//! A line: the name of its call, and the answer of that call to what the line gives it.

use crate::answers::WriteAnswer;
use crate::inputs::{Inputs, call_named};
use crate::runs::Run;
use crate::tokens::{NoCall, Tokens};
use crate::write::output::Output;
use crate::write::refusals::write_refusal;
use std::alloc::{AllocError, Global};
use std::str;
use vortex_dtype::VortexError;

/// The answer to a line, as it is written.
#[derive(Drop)]
pub struct LineAnswer {
    /// What the answer is, as it stands in a line.
    pub text: String,
    /// Whether the line is not read: it is not in the language, or nests too deep.
    pub is_bad: bool,
}

/// The answer to a line. `AllocError` if there is no memory to read the line or to write the answer.
pub type LineResult = Result<LineAnswer, AllocError>;

/// A line whose call is named. The families of calls are asked for that name one after another, and the
/// answer is kept.
#[derive(Drop)]
pub struct Line<'a> {
    run: Run<'a>,
    text: &'a [u8],
    name: &'a [u8],
    tokens: Tokens<'a>,
    answer: Option<LineResult>,
}

impl<'a> Line<'a> {
    /// Reads the name of a line's call. It is empty if the line has none, or is not UTF-8.
    pub fn new(run: Run<'a>, text: &'a [u8]) -> Line<'a> {
        let mut tokens = Tokens::of(run.alloc(), run.depth(), text);
        let name = tokens.word();
        Line {
            run,
            text,
            name: if str::from_utf8(text).is_ok() {
                name
            } else {
                &[]
            },
            tokens,
            answer: None,
        }
    }

    /// The expected answer of the line, if it has one and what stands before it was read.
    pub fn expected(&self) -> Option<&'a [u8]> {
        self.tokens.expected()
    }

    /// The answer of the call that the line names. Without such a call the line is bad.
    pub fn into_answer(self) -> LineResult {
        let Line {
            run,
            answer,
            tokens,
            ..
        } = self;
        drop(tokens);
        match answer {
            Some(answer) => answer,
            None => line_answer(run.alloc(), "bad line", true),
        }
    }

    /// Answers the line if the table has its call, which borrows its inputs. A watched run answers
    /// `changed` if they are not as they were.
    pub fn lend<
        I: Inputs,
        C: Copy,
        A: WriteAnswer,
        F: FnOnce(Global, C, &I) -> Result<A, VortexError> + Copy,
    >(&mut self, table: &[(&str, C, &[I::Input])], answer_of: F)
        requires { F.IsAlwaysCallable answer_of }
    {
        let Some((call, asked)) = call_named(table, self.name) else {
            return;
        };
        let mut inputs = I::empty(self.run.alloc());
        if self.reads(&mut inputs, asked) {
            self.run.report("called");
            let outcome = answer_of(self.run.alloc(), call, &inputs);
            self.run.report("answered");
            if self.run.is_watched() && self.is_changed(&inputs, asked) {
                drop(outcome);
                self.keep(line_answer(self.run.alloc(), "changed", false));
            } else {
                self.keep(written(self.run.alloc(), outcome));
            }
        }
    }

    /// Answers the line if the table has its call, which may take its inputs from their places.
    pub fn give<
        I: Inputs,
        C: Copy,
        A: WriteAnswer,
        F: FnOnce(Global, C, &mut I) -> Result<A, VortexError> + Copy,
    >(&mut self, table: &[(&str, C, &[I::Input])], answer_of: F)
        requires { F.IsAlwaysCallable answer_of }
    {
        let Some((call, asked)) = call_named(table, self.name) else {
            return;
        };
        let mut inputs = I::empty(self.run.alloc());
        if self.reads(&mut inputs, asked) {
            self.run.report("called");
            let outcome = answer_of(self.run.alloc(), call, &mut inputs);
            self.run.report("answered");
            self.keep(written(self.run.alloc(), outcome));
        }
    }

    /// Reads all inputs of the call, and tells whether it is to be made. If not, the line is answered.
    fn reads<I: Inputs>(&mut self, inputs: &mut I, asked: &[I::Input]) -> bool {
        read_all(inputs, asked, &mut self.tokens);
        match self.tokens.end() {
            Ok(None) => return true,
            Ok(Some(reason)) => self.keep(without_call(self.run.alloc(), reason)),
            Err(fault) => self.keep(Err(fault)),
        }
        false
    }

    /// Keeps the answer of the line.
    fn keep(&mut self, answer: LineResult) {
        self.answer = Some(answer);
    }

    /// Whether inputs differ from a second reading of the line, which shares no memory with them.
    fn is_changed<I: Inputs>(&self, inputs: &I, asked: &[I::Input]) -> bool {
        let mut tokens = Tokens::of(self.run.alloc(), self.run.depth(), self.text);
        tokens.word();
        let mut copy = I::empty(self.run.alloc());
        read_all(&mut copy, asked, &mut tokens);
        !inputs.is_same(&copy)
    }
}

fn read_all<I: Inputs>(inputs: &mut I, asked: &[I::Input], tokens: &mut Tokens<'_>) {
    for input in asked {
        inputs.read(*input, tokens);
    }
}

fn line_answer(alloc: Global, text: &str, is_bad: bool) -> LineResult {
    Ok(LineAnswer {
        text: String::from_str(alloc, text)?,
        is_bad,
    })
}

/// The answer to a line whose call is not made.
fn without_call(alloc: Global, reason: NoCall) -> LineResult {
    match reason {
        NoCall::BadLine => line_answer(alloc, "bad line", true),
        NoCall::TooDeep => line_answer(alloc, "TooDeep", true),
        NoCall::Refused(refusal) => refused(alloc, refusal),
    }
}

/// A call's answer, as it is written. A refusal is an answer too.
fn written<A: WriteAnswer>(alloc: Global, outcome: Result<A, VortexError>) -> LineResult {
    match outcome {
        Ok(answer) => answered(alloc, answer),
        Err(refusal) => refused(alloc, refusal),
    }
}

fn answered<A: WriteAnswer>(alloc: Global, answer: A) -> LineResult {
    let mut out = Output::new(alloc);
    answer.write_answer(&mut out);
    drop(answer);
    text_answer(out)
}

fn refused(alloc: Global, refusal: VortexError) -> LineResult {
    let mut out = Output::new(alloc);
    write_refusal(&mut out, &refusal);
    drop(refusal);
    text_answer(out)
}

fn text_answer(out: Output) -> LineResult {
    Ok(LineAnswer {
        text: out.into_text()?,
        is_bad: false,
    })
}
