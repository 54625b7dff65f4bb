//! The output.

ghost use Rattle.std.specs.Prelude.{◌≡◌, IfErr, OnOk};
ghost use Rattle.rows.specs.Words.{Appends};

use crate::faults::RowsError;
use std::io::Write;

/// Writes all bytes and flushes the writer.
///
/// `Write` for every error of the writer. How much was written is then not known.
pub fn write_out<W: Write>(writer: &mut W, output: &[u8]) -> Result<(), RowsError>
    ensures written { OnOk result
        (Appends (W.contents writer.old) (W.contents writer.new) output.now) }
    ensures fault { IfErr result (λ e. e ≡ RowsError.Write) }
{
    writer.write_all(output).map_err(|_| RowsError::Write)?;
    writer.flush().map_err(|_| RowsError::Write)
}
