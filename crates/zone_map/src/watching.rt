//! Readers whose bytes are counted, and that tell how far they are.

use std::io::{self, IsTerminal, Read, Stderr, Write};

/// A reader whose bytes are counted.
#[derive(Drop)]
pub struct Watched<R> {
    /// The reader.
    pub reader: R,
    /// How many bytes it gave, as far as 64 bits count.
    pub count: u64,
    /// How far it is, if that is told.
    progress: Option<Progress>,
}

/// How far a reader is.
#[derive(Clone, Copy)]
struct Progress {
    /// Where it is told.
    output: Stderr,
    /// How many bytes there are.
    total: u64,
    /// How many were read when it was told last.
    told: u64,
}

/// A hundredth of the bytes, and one, are read before a progress is told again.
const PARTS: u64 = 100;

impl Progress {
    /// Tells how far the reader is, if that is much more than when it was told last.
    fn tell(self, count: u64) -> Progress {
        if count.saturating_sub(self.told) <= self.total / PARTS {
            return self;
        }
        let mut output = self.output;
        let _ = write!(output, "\r{count} of {} bytes", self.total);
        Progress {
            told: count,
            ..self
        }
    }
}

impl<R> Watched<R> {
    /// The reader, of which nothing is told.
    pub fn silent(reader: R) -> Watched<R> {
        Watched {
            reader,
            count: 0,
            progress: None,
        }
    }

    /// The reader, which has so many bytes. How far it is, is told if the output is a terminal.
    pub fn telling(reader: R, output: Stderr, total: u64) -> Watched<R> {
        let progress = Progress {
            output,
            total,
            told: 0,
        };
        Watched {
            reader,
            count: 0,
            progress: if output.is_terminal() {
                Some(progress)
            } else {
                None
            },
        }
    }

    /// Counts so many bytes more.
    fn add(&mut self, count: usize) {
        let count = self.count.saturating_add(count as u64);
        self.count = count;
        if let Some(progress) = self.progress {
            self.progress = Some(progress.tell(count));
        }
    }

    /// Ends the line that tells how far the reader is.
    pub fn end(&self) {
        if let Some(progress) = self.progress {
            let mut output = progress.output;
            let _ = writeln!(output, "\r{} of {} bytes", self.count, progress.total);
        }
    }
}

impl<R: Read> Read for Watched<R> {
    fn read(&mut self, into: &mut [u8]) -> io::Result<usize> {
        let count = self.reader.read(into)?;
        self.add(count);
        Ok(count)
    }
}
