//! Where the records that match go.

ghost use Rattle.std.specs.Prelude.{◌≡◌, ◌++◌, ℕ, List, [], Option, IfErr, OnErr, OnOk, true};
ghost use Rattle.std.specs.Io.KnownBytes.{Appends, Keeps};
ghost use Rattle.csv_records.specs.Records.{records_of};
ghost use Rattle.zone_index.specs.Sinks.{WritesFirst, numbered_record, plain_record, written_of};
ghost use Rattle.zone_index.specs.declared.errors.SearchError.TheVariants.{Write as FailedWrite};

use crate::errors::SearchError;
use csv_records::{Delimiter, cut_record};
use std::alloc::{AllocError, Global};
use std::fmt::Write as WriteText;
use std::io::{ErrorKind, Write};

/// Takes the records that match, in order, and writes them.
///
/// A search gives the records of a zone one after another, and then has them written: of a zone
/// with a record that is refused, nothing is.
pub trait Sink {
    // What is written of the record that has this number.
    ghost written_as: { ℕ → List ℕ → List ℕ };
    // All that was written, where that is known.
    ghost contents: { Self → Option (List ℕ) };
    // What is to be written of the records that were taken since the beginning.
    ghost taken: { Self → List ℕ };

    /// Begins anew, and forgets what was taken and not written.
    fn begin(&mut self)
        ensures none { taken self.new ≡ [] }
        ensures kept { contents self.new ≡ contents self.old };

    /// Takes a record that matches, and that has this number.
    fn matched(&mut self, number: u64, line: &[u8]) -> Result<(), AllocError>
        ensures taken { OnOk result (taken self.new ≡ taken self.old ++ written_as number line.now) }
        ensures kept { contents self.new ≡ contents self.old };

    /// Takes the records of a text, each of which matches. The first one has this number.
    fn all_matched(
        &mut self,
        delimiter: Delimiter,
        first: u64,
        lines: Vec<u8>,
    ) -> Result<(), AllocError>
        ensures taken { OnOk result (taken self.new ≡ taken self.old
            ++ written_of written_as (λ _. true) first (records_of delimiter.byte lines.items)) }
        ensures kept { contents self.new ≡ contents self.old }
    {
        let mut number = first;
        let mut rest = lines.as_slice();
        while !rest.is_empty() {
            let (line, after) = cut_record(delimiter, rest);
            self.matched(number, line)?;
            number = number.saturating_add(1);
            rest = after;
        }
        Ok(())
    }

    /// Writes what was taken; a beginning of it, if a write fails.
    fn finish(&mut self) -> Result<(), SearchError>
        ensures written { OnOk result (Appends (contents self.old) (contents self.new) (taken self.old)) }
        ensures begun { OnErr result (WritesFirst (contents self.old) (contents self.new) (taken self.old)) }
        ensures fault { IfErr result (λ fault. fault ≡ FailedWrite) };

    /// Has all that was written passed on.
    fn flush(&mut self) -> Result<(), SearchError>
        ensures kept { Keeps (contents self.old) (contents self.new) }
        ensures fault { IfErr result (λ fault. fault ≡ FailedWrite) };
}

/// Writes the records that match as they stand.
#[derive(Debug, Drop)]
pub struct PlainSink<W> {
    /// Where they are written.
    pub writer: W,
    /// Those that were taken and not written.
    pub lines: Vec<u8>,
}

impl<W> PlainSink<W> {
    /// A sink over a writer.
    pub fn new(alloc: Global, writer: W) -> PlainSink<W>
        ensures { result.writer ≡ writer }
    {
        PlainSink {
            writer,
            lines: Vec::new(alloc),
        }
    }
}

impl<W: Write> Sink for PlainSink<W> {
    ghost written_as = { plain_record };

    ghost contents = { λ sink. W.contents sink.writer };

    ghost taken = { λ sink. sink.lines.items };

    fn begin(&mut self) {
        self.lines.clear();
    }

    fn matched(&mut self, _number: u64, line: &[u8]) -> Result<(), AllocError> {
        self.lines.extend_from_slice(line)
    }

    fn all_matched(
        &mut self,
        _delimiter: Delimiter,
        _first: u64,
        lines: Vec<u8>,
    ) -> Result<(), AllocError> {
        if self.lines.is_empty() {
            self.lines = lines;
            Ok(())
        } else {
            self.lines.extend_from_slice(&lines)
        }
    }

    fn finish(&mut self) -> Result<(), SearchError> {
        write_out(&mut self.writer, &self.lines)
    }

    fn flush(&mut self) -> Result<(), SearchError> {
        flush_out(&mut self.writer)
    }
}

/// Writes each record that matches after its number: `NUMBER:RECORD`.
#[derive(Debug, Drop)]
pub struct NumberedSink<W> {
    /// Where they are written.
    pub writer: W,
    /// Those that were taken and not written.
    pub lines: Vec<u8>,
    /// A buffer for a number.
    pub digits: String,
}

impl<W> NumberedSink<W> {
    /// A sink over a writer.
    pub fn new(alloc: Global, writer: W) -> NumberedSink<W>
        ensures { result.writer ≡ writer }
    {
        NumberedSink {
            writer,
            lines: Vec::new(alloc),
            digits: String::new(alloc),
        }
    }
}

impl<W: Write> Sink for NumberedSink<W> {
    ghost written_as = { numbered_record };

    ghost contents = { λ sink. W.contents sink.writer };

    ghost taken = { λ sink. sink.lines.items };

    fn begin(&mut self) {
        self.lines.clear();
    }

    fn matched(&mut self, number: u64, line: &[u8]) -> Result<(), AllocError> {
        push_numbered(number, line, &mut self.digits, &mut self.lines)
    }

    fn finish(&mut self) -> Result<(), SearchError> {
        write_out(&mut self.writer, &self.lines)
    }

    fn flush(&mut self) -> Result<(), SearchError> {
        flush_out(&mut self.writer)
    }
}

/// Appends a record after its number.
fn push_numbered(
    number: u64,
    line: &[u8],
    digits: &mut String,
    output: &mut Vec<u8>,
) -> Result<(), AllocError>
    ensures { OnOk result (output.new.items ≡ output.old.items ++ numbered_record number line.now) }
{
    digits.clear();
    write!(digits, "{number}:")?;
    output.extend_from_slice(digits.as_bytes())?;
    output.extend_from_slice(line)
}

/// Writes all bytes. `write_all` does the same, and does not say what it wrote before it failed.
fn write_out<W: Write>(writer: &mut W, output: &[u8]) -> Result<(), SearchError>
    ensures written { OnOk result
        (Appends (W.contents writer.old) (W.contents writer.new) output.now) }
    ensures begun { WritesFirst (W.contents writer.old) (W.contents writer.new) output.now }
    ensures fault { IfErr result (λ fault. fault ≡ FailedWrite) }
{
    let mut rest = output;
    for _ in 0..u64::MAX {
        if rest.is_empty() {
            return Ok(());
        }
        match writer.write(rest) {
            Ok(0) => return Err(SearchError::Write),
            Ok(count) => rest = &rest[count..],
            Err(error) => {
                if error.kind() != ErrorKind::Interrupted {
                    return Err(SearchError::Write);
                }
            }
        }
    }
    Err(SearchError::Write)
}

/// Flushes the writer.
fn flush_out<W: Write>(writer: &mut W) -> Result<(), SearchError>
    ensures kept { Keeps (W.contents writer.old) (W.contents writer.new) }
    ensures fault { IfErr result (λ fault. fault ≡ FailedWrite) }
{
    writer.flush().map_err(|_| SearchError::Write)
}
