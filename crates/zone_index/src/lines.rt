//! A line is read from a stream.

ghost use Rattle.std.specs.Prelude.{◌≡◌, ◌≢◌, ◌-◌, ◌<◌, ◌≤◌, ◌+◌, ◌++◌, All, IfOk, IfSome, Ok, OnOk, OnSome};
ghost use Rattle.std.specs.Prelude.{length, take, true, vec_len};
ghost use Rattle.std.specs.Io.{IsEmptyOrEndsWith, StartsWith, StopsAt, appended_bytes};
ghost use Rattle.std.specs.Io.BufRead.{DropsThrough, take_through};
ghost use Rattle.std.specs.Io.KnownBytes.{Consumes, IsAtEnd};

use memchr::memchr;
use std::io::{self, BufRead, ErrorKind};

/// Appends the rest of a line, with its line feed, and says how many bytes it has: none only at the
/// end. `BufRead::read_until` does the same, and looks at one byte at a time: it takes three times
/// the instructions.
pub(crate) fn read_line<B: BufRead>(reader: &mut B, text: &mut Vec<u8>) -> io::Result<usize>
    ensures count { IfOk result (λ n. vec_len text.new ≡ vec_len text.old + n) }
    ensures bytes { OnOk result (IfSome (B.remaining reader.old)
        (λ xs. text.new.items ≡ text.old.items ++ take_through 10 xs)) }
    ensures rest { OnOk result (DropsThrough (B.remaining reader.old) (B.remaining reader.new) 10) }
    ensures end { IfOk result (λ n. n ≡ 0 → IsAtEnd (B.remaining reader.old)) }
{
    let start = text.len();
    for _ in 0..u64::MAX {
        if append_through(reader, text)? {
            return Ok(text.len() - start);
        }
    }
    Err(io::Error::from(ErrorKind::Interrupted))
}

/// Appends bytes that the reader has at hand, up to a line feed, and says whether the line ends or
/// nothing is left.
fn append_through<B: BufRead>(reader: &mut B, text: &mut Vec<u8>) -> io::Result<bool>
    ensures grows { vec_len text.old ≤ vec_len text.new }
    ensures appends { StartsWith text.new.items text.old.items }
    ensures stops { StopsAt (appended_bytes text.old.items text.new.items) 10 }
    ensures bytes { Consumes (B.remaining reader.old) (B.remaining reader.new)
        (appended_bytes text.old.items text.new.items) }
    ensures end { result ≡ Ok true → length (appended_bytes text.old.items text.new.items) ≡ 0
        → OnSome (B.remaining reader.old) (IsAtEnd (B.remaining reader.new)) }
    ensures no_feed_unless_done { result ≢ Ok true
        → All (λ x. x ≢ 10) (appended_bytes text.old.items text.new.items) }
    ensures done_at_feed_or_end { result ≡ Ok true
        → IsEmptyOrEndsWith (appended_bytes text.old.items text.new.items) 10 }
{
    let available = match reader.fill_buf() {
        Ok(available) => available,
        Err(error) => {
            return if error.kind() == ErrorKind::Interrupted {
                Ok(false)
            } else {
                Err(error)
            };
        }
    };
    let end = length_through(available);
    text.extend_from_slice(&available[..end])?;
    let is_done = end == 0 || available[end - 1] == b'\n';
    reader.consume(end);
    Ok(is_done)
}

/// How many bytes there are up to the first line feed, and with it; all if there is none.
fn length_through(bytes: &[u8]) -> usize
    ensures bound { result ≤ length bytes.now }
    ensures some { 0 < length bytes.now → 0 < result }
    ensures before { All (λ x. x ≢ 10) (take (result - 1) bytes.now) }
{
    match memchr(b'\n', bytes) {
        Some(feed) => feed + 1,
        None => bytes.len(),
    }
}
