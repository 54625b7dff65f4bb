//! The input.

ghost use Rattle.std.specs.Prelude.{◌≡◌, ◌≢◌, IfErr, IfOk, IfSome, OnOk};
ghost use Rattle.rows.specs.Words.{GaveSome, IsAtEnd};

use crate::faults::RowsError;
use std::alloc::Global;
use std::io::Read;

/// How many bytes one read asks for.
pub const PIECE: usize = 4096;

/// How many reads are made at most, with the one that meets the end.
pub const READS: u32 = 1_048_576;

/// Reads to the end, in pieces of 4,096 bytes at most.
///
/// `Read` for every error of the reader, and if the input has not ended within 1,048,576 reads.
/// `Memory` if no memory is left for what was read.
#[tactic(auto, using(crate::proofs::KnownReads::reads))]
pub fn read_all<R: Read>(alloc: Global, reader: &mut R) -> Result<Vec<u8>, RowsError>
    ensures bytes { IfOk result
        (λ input. IfSome (R.remaining reader.old) (λ all. input.items ≡ all)) }
    ensures end { OnOk result (IsAtEnd (R.remaining reader.new)) }
    ensures fault { IfErr result (λ e. e ≢ RowsError.Write) }
    ensures memory { IfErr result (λ e. e ≡ RowsError.Memory
        → GaveSome (R.remaining reader.old) (R.remaining reader.new)) }
{
    let mut input = Vec::new(alloc);
    let mut piece = [0u8; PIECE];
    for _turn in 0..READS {
        let count = reader.read(&mut piece).map_err(|_| RowsError::Read)?;
        if count == 0 {
            return Ok(input);
        }
        input.extend_from_slice(&piece[..count])?;
    }
    Err(RowsError::Read)
}
