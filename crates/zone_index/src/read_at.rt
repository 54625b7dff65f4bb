//! Readers whose bytes have offsets.

ghost use Rattle.std.specs.Prelude.{◌≡◌, ◌≢◌, ◌<◌, ◌≤◌, ◌+◌, ◌++◌, ◌∷◌, ◌^◌, [], ℕ, List, Option, Some, None, IfErr};
ghost use Rattle.std.specs.Prelude.{IfOk, IfSome, OnErr, OnOk, drop, length, take};
ghost use Rattle.std.specs.Io.{ReadsAtMost};
ghost use Rattle.std.specs.Io.Cursor.{cursor_inner};
ghost use Rattle.zone_index.specs.Asking.{AsksOnce, AsksWithin, asked_at};
ghost use Rattle.zone_index.specs.Errors.{IsOfStream};
ghost use Rattle.zone_index.specs.declared.read_at.Asked.{Asked};
ghost use Rattle.zone_index.specs.declared.errors.SearchError.TheVariants.{CutShort};

use crate::errors::SearchError;
use std::fs::File;
use std::io::{self, AsBytes, Cursor, ErrorKind, Read, Seek, SeekFrom};
use std::os::unix::fs::FileExt;

/// What was asked of a reader: so many bytes from an offset on.
#[derive(Clone, Copy, Debug, PartialEq, Eq)]
pub struct Asked {
    /// The offset.
    pub place: u64,
    /// How many bytes.
    pub length: u64,
}

/// What can be read from any offset.
pub trait ReadAt {
    // All its bytes, where they are known.
    ghost bytes: { Self → Option (List ℕ) } = { λ _. None };
    // What it was asked for so far, where that is known.
    ghost asked: { Self → Option (List Asked) } = { λ _. None };

    /// Reads some bytes from this offset on: as many as came, none only at the end or with an empty
    /// buffer.
    fn read_at(&mut self, at: u64, into: &mut [u8]) -> io::Result<usize>
        ensures bound { ReadsAtMost result into.new }
        ensures given { IfOk result (λ n. IfSome (bytes self.old)
            (λ xs. take n into.new ≡ take n (drop at xs))) }
        ensures end { IfOk result (λ n. IfSome (bytes self.old)
            (λ xs. n ≡ 0 → 0 < length into.old → length xs ≤ at)) }
        ensures kept { bytes self.new ≡ bytes self.old }
        ensures asks { OnOk result (IfSome (asked self.old) (λ before.
            asked self.new ≡ Some (before ++ asked_at at (length into.old) ∷ []))) }
        ensures failed { OnErr result (AsksOnce (asked self.old) (asked self.new) at (length into.old)) };
}

/// Of bytes in memory, which are known.
impl<T: AsBytes> ReadAt for Cursor<T> {
    ghost bytes = { λ cursor. T.bytes (cursor_inner cursor) };

    fn read_at(&mut self, at: u64, into: &mut [u8]) -> io::Result<usize> {
        self.seek(SeekFrom::Start(at))?;
        self.read(into)
    }
}

/// Of a file, whose bytes no contract knows.
impl ReadAt for File {
    fn read_at(&mut self, at: u64, into: &mut [u8]) -> io::Result<usize> {
        FileExt::read_at(self, into, at)
    }
}

/// A reader that keeps what it was asked for.
#[derive(Debug, Drop)]
pub struct Logged<R> {
    /// The reader.
    pub reader: R,
    /// What it was asked for, in order.
    pub asked: Vec<Asked>,
}

/// Fails, too, where no memory is left for what was asked.
impl<R: ReadAt> ReadAt for Logged<R> {
    ghost bytes = { λ logged. R.bytes logged.reader };

    ghost asked = { λ logged. Some logged.asked.items };

    fn read_at(&mut self, at: u64, into: &mut [u8]) -> io::Result<usize> {
        let asked = Asked {
            place: at,
            length: into.len() as u64,
        };
        match self.asked.push(asked) {
            Ok(()) => self.reader.read_at(at, into),
            Err(_) => Err(io::Error::from(ErrorKind::OutOfMemory)),
        }
    }
}

/// Fills the buffer with the bytes from this offset on.
///
/// `CutShort` where there are fewer bytes.
pub fn fill_from<R: ReadAt>(reader: &mut R, at: u64, into: &mut [u8]) -> Result<(), SearchError>
    requires { at + length into.old < 2 ^ 64 }
    ensures filled { OnOk result (IfSome (R.bytes reader.old)
        (λ xs. into.new ≡ take (length into.old) (drop at xs))) }
    ensures cut { IfErr result (λ fault. fault ≡ CutShort → IfSome (R.bytes reader.old)
        (λ xs. length xs < at + length into.old)) }
    ensures why { IfErr result (λ fault. fault ≢ CutShort → IsOfStream fault) }
    ensures kept { R.bytes reader.new ≡ R.bytes reader.old }
    ensures asks { AsksWithin (R.asked reader.old) (R.asked reader.new) at (at + length into.old) }
{
    let mut done = 0;
    while done < into.len() {
        match reader.read_at(at + done as u64, &mut into[done..]) {
            Ok(0) => return Err(SearchError::CutShort),
            Ok(count) => done += count,
            Err(error) => return Err(SearchError::of_read(error)),
        }
    }
    Ok(())
}
