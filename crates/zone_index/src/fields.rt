//! Fields of an index in bytes.

ghost use Rattle.std.specs.Prelude.{◌≡◌, ◌≢◌, ℕ, List, IfErr, false, true};
ghost use Rattle.std.specs.Int.{w32, w64};
ghost use Rattle.zone_index.specs.Encoding.{ArePieces};
ghost use Rattle.zone_index.specs.EncodingReading.{Gives, bytes_at, front_at, known_at, number_at, piece_at};
ghost use Rattle.zone_index.specs.declared.encoding.ReadError.TheVariants.{Memory};

use crate::encoding::{EncodingError, ReadError};

/// The number in the first four bytes, and what follows them.
fn u32_at(bytes: &[u8]) -> Result<(u32, &[u8]), ReadError>
    ensures read { Gives (λ x. (x.0, x.1.now)) result (number_at w32 bytes.now) }
    ensures memory { IfErr result (λ e. e ≢ Memory) }
{
    if bytes.len() < 4 {
        return Err(ReadError::Fault(EncodingError::Short));
    }
    let (front, rest) = bytes.split_at(4);
    let number = u32::from_le_bytes([front[0], front[1], front[2], front[3]]);
    Ok((number, rest))
}

/// The number in the first eight bytes, and what follows them.
pub(crate) fn u64_at(bytes: &[u8]) -> Result<(u64, &[u8]), ReadError>
    ensures read { Gives (λ x. (x.0, x.1.now)) result (number_at w64 bytes.now) }
    ensures memory { IfErr result (λ e. e ≢ Memory) }
{
    if bytes.len() < 8 {
        return Err(ReadError::Fault(EncodingError::Short));
    }
    let (front, rest) = bytes.split_at(8);
    let number = u64::from_le_bytes([
        front[0], front[1], front[2], front[3], front[4], front[5], front[6], front[7],
    ]);
    Ok((number, rest))
}

/// What follows the number, if it is this one.
pub(crate) fn after_known(
    fault: EncodingError,
    number: u32,
    bytes: &[u8],
) -> Result<&[u8], ReadError>
    ensures read { Gives (λ x. x.now) result (known_at fault number bytes.now) }
    ensures memory { IfErr result (λ e. e ≢ Memory) }
{
    let (found, rest) = u32_at(bytes)?;
    if found == number {
        Ok(rest)
    } else {
        Err(ReadError::Fault(fault))
    }
}

/// So many bytes, and what follows them.
pub(crate) fn front_in(count: u64, bytes: &[u8]) -> Result<(&[u8], &[u8]), ReadError>
    ensures read { Gives (λ x. (x.0.now, x.1.now)) result (front_at count bytes.now) }
    ensures memory { IfErr result (λ e. e ≢ Memory) }
{
    let count = count as usize;
    if bytes.len() < count {
        return Err(ReadError::Fault(EncodingError::Short));
    }
    Ok(bytes.split_at(count))
}

/// As many bytes as a number before them says, and what follows them.
#[tactic(auto, unfolding(crate::specs::EncodingReading::bytes_at))]
pub(crate) fn bytes_in(bytes: &[u8]) -> Result<(&[u8], &[u8]), ReadError>
    ensures read { Gives (λ x. (x.0.now, x.1.now)) result (bytes_at bytes.now) }
    ensures memory { IfErr result (λ e. e ≢ Memory) }
{
    let (count, rest) = u64_at(bytes)?;
    front_in(count, rest)
}

/// The same, and the number stays before the bytes.
#[tactic(auto, unfolding(crate::specs::EncodingReading::piece_at))]
pub(crate) fn piece_in(bytes: &[u8]) -> Result<(&[u8], &[u8]), ReadError>
    ensures read { Gives (λ x. (x.0.now, x.1.now)) result (piece_at bytes.now) }
    ensures memory { IfErr result (λ e. e ≢ Memory) }
{
    let (count, rest) = u64_at(bytes)?;
    let count = count as usize;
    if rest.len() < count {
        return Err(ReadError::Fault(EncodingError::Short));
    }
    Ok(bytes.split_at(8 + count))
}

/// Whether bytes are so many pieces, each after its length, and nothing else. It takes no memory.
pub fn are_pieces(count: usize, bytes: &[u8]) -> bool
    ensures are { result ≡ true → (pieces : List (List ℕ)) × ArePieces count bytes.now pieces }
    ensures none { result ≡ false → (pieces : List (List ℕ)) → ¬ (ArePieces count bytes.now pieces) }
{
    let mut rest = bytes;
    for _ in 0..count {
        match piece_in(rest) {
            Ok((_, after)) => rest = after,
            Err(_) => return false,
        }
    }
    rest.is_empty()
}
