//! Rows are written as lines, so that those of several files stand below each other.

ghost use Rattle.std.specs.Prelude.{◌≡◌, ◌++◌, ℕ, List, [], Bool, OnOk, codes, false};
ghost use Rattle.std.specs.Fmt.{decimal};
ghost use Rattle.zone_map.specs.Lines.{line_record, whole_line};

use std::alloc::{AllocError, Global};
use std::fmt::Write as WriteText;
use std::io::Write;
use std::marker::{Brand, PhantomData};
use zone_index::{PlainSink, SearchError, Sink};

/// What stands before each row.
#[derive(Drop)]
pub struct Front {
    /// A text: the name of a file and a colon, or nothing.
    pub text: Vec<u8>,
    /// Whether the number of the record and a colon follow it.
    pub has_number: bool,
}

/// A front that the words of a type speak of: the proof of a call picks it.
pub trait KnownFront {
    // Its text.
    ghost text: { List ℕ };
    // Whether a number follows it.
    ghost has_number: { Bool };
}

impl KnownFront for Brand {
    ghost text = { [] };

    ghost has_number = { false };
}

/// Writes each record that matches as a line: behind a front, and with a line feed at its end.
#[derive(Drop)]
pub struct LineSink<K: KnownFront, W> {
    /// Where the lines are written.
    lines: PlainSink<W>,
    /// What stands before each.
    front: Front,
    /// A buffer for a number.
    digits: String,
    known: PhantomData<K>,
    ghost is: { (front.text.items ≡ K.text) × (front.has_number ≡ K.has_number) },
}

impl<K: KnownFront, W> LineSink<K, W> {
    /// A sink over a writer.
    pub fn new(alloc: Global, writer: W, front: Front) -> LineSink<K, W>
        requires text { front.text.items ≡ K.text }
        requires number { front.has_number ≡ K.has_number }
        ensures { result.lines.writer ≡ writer }
    {
        LineSink {
            lines: PlainSink::new(alloc, writer),
            front,
            digits: String::new(alloc),
            known: PhantomData,
        }
    }
}

impl<K: KnownFront, W: Write> Sink for LineSink<K, W> {
    ghost written_as = { line_record K.text K.has_number };

    ghost contents = { λ sink. W.contents sink.lines.writer };

    ghost taken = { λ sink. sink.lines.lines.items };

    fn begin(&mut self) {
        self.lines.begin();
    }

    fn matched(&mut self, number: u64, line: &[u8]) -> Result<(), AllocError> {
        let output = &mut self.lines.lines;
        output.extend_from_slice(&self.front.text)?;
        if self.front.has_number {
            push_number(number, &mut self.digits, output)?;
        }
        push_line(line, output)
    }

    fn finish(&mut self) -> Result<(), SearchError> {
        self.lines.finish()
    }

    fn flush(&mut self) -> Result<(), SearchError> {
        self.lines.flush()
    }
}

/// Appends a number and a colon.
fn push_number(number: u64, digits: &mut String, output: &mut Vec<u8>) -> Result<(), AllocError>
    ensures { OnOk result (output.new.items ≡ output.old.items ++ (decimal number ++ codes ":")) }
{
    digits.clear();
    write!(digits, "{number}:")?;
    output.extend_from_slice(digits.as_bytes())
}

/// Appends a record as a line.
fn push_line(line: &[u8], output: &mut Vec<u8>) -> Result<(), AllocError>
    ensures { OnOk result (output.new.items ≡ output.old.items ++ whole_line line.now) }
{
    output.extend_from_slice(line)?;
    if line.last() != Some(&b'\n') {
        output.push(b'\n')?;
    }
    Ok(())
}
