//! The errors that stop a program.

ghost use Rattle.std.specs.Prelude.{◌≡◌};
ghost use Rattle.rows.specs.Words.{Memory, fault_text};

use std::alloc::AllocError;

/// Why the program stopped.
#[derive(Debug, Drop)]
pub enum RowsError {
    /// A read failed, or the input did not end within 1,048,576 reads.
    Read,
    /// A write, or the flush after it, failed.
    Write,
    /// No memory was left.
    Memory,
}

/// Out of memory.
impl From<AllocError> for RowsError {
    ghost from_gives = { λ _ fault. fault ≡ Memory };

    fn from(_error: AllocError) -> RowsError {
        RowsError::Memory
    }
}

/// What the program writes on standard error after this error.
pub fn fault_line(fault: &RowsError) -> &'static str
    ensures { result.now ≡ fault_text fault.now }
{
    match fault {
        RowsError::Read => "read failed",
        RowsError::Write => "write failed",
        RowsError::Memory => "out of memory",
    }
}
