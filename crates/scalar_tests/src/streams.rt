//! A writer whose flush fails.

use rows::{RowsError, write_out};
use std::io::{self, Write};

/// Takes all bytes, and fails when it is flushed.
#[derive(Drop)]
struct Unflushed;

impl Write for Unflushed {
    fn write(&mut self, buf: &[u8]) -> io::Result<usize> {
        Ok(buf.len())
    }

    fn flush(&mut self) -> io::Result<()> {
        Err(io::Error::other("not flushed"))
    }
}

#[test]
fn a_failed_flush_is_a_failed_write(rt: HostRuntime) {
    let written = write_out(&mut Unflushed, b"bad line\n");
    assert!(rt; matches!(written, Err(RowsError::Write)));
}
