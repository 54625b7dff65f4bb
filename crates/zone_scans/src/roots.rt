//! How long the root of an index is.

ghost use Rattle.std.specs.Prelude.{◌≡◌, ◌≢◌, ◌<◌, ◌≤◌, ◌+◌, ◌++◌, ◌^◌, ◌-◌, ℕ};
ghost use Rattle.std.specs.Prelude.{List, Err, IfErr, IfOk, drop, length, min, take};
ghost use Rattle.std.specs.Int.{from_le_bytes, w32, w64};
ghost use Rattle.zone_index.specs.Encoding.{RootValue, content_encoding, root_encoding};
ghost use Rattle.zone_index.specs.EncodingReading.{root_at};
ghost use Rattle.zone_index.specs.declared.encoding.EncodingError.TheVariants.{Short};
ghost use Rattle.zone_scans.specs.Roots.{BeginsAsIndex};

use zone_index::{EncodingError, MAGIC, VERSION};

/// How many bytes of an index say how long its root is: the last eight of them are how many follow, but
/// for the root's digest.
pub const HEAD_LENGTH: usize = 16;

/// How many bytes a digest has.
const DIGEST_LENGTH: u64 = 32;

/// How many bytes the root of an index has that begins with these, as far as 64 bits tell. What follows
/// the first `HEAD_LENGTH` of them is not looked at.
pub fn root_length(head: &[u8]) -> Result<u64, EncodingError>
    ensures long { IfOk result (λ n. (r : RootValue) (more rest : List ℕ) → length (content_encoding r) < 2 ^ 64
        → head.now ++ more ≡ root_encoding r ++ rest → n ≡ min (length (root_encoding r)) (2 ^ 64 - 1)) }
    ensures short { IfErr result (λ e. e ≡ Short → length head.now < 16) }
    ensures few { length head.now < 16 → result ≡ Err Short }
    ensures enough { IfOk result (λ n. 16 ≤ length head.now) }
    ensures known { IfOk result (λ _. BeginsAsIndex head.now) }
    // Whatever follows, these are no bytes of an index.
    ensures other { IfErr result (λ e. e ≢ Short → (more : List ℕ) → root_at (head.now ++ more) ≡ Err e) }
{
    if head.len() < HEAD_LENGTH {
        return Err(EncodingError::Short);
    }
    if u32_at(head, 0) != MAGIC {
        return Err(EncodingError::Magic);
    }
    if u32_at(head, 4) != VERSION {
        return Err(EncodingError::Version);
    }
    Ok(u64_at(head, 8).saturating_add(HEAD_LENGTH as u64 + DIGEST_LENGTH))
}

/// The number that four bytes at this place are.
fn u32_at(bytes: &[u8], place: usize) -> u32
    requires { place + 4 ≤ length bytes.now }
    ensures { result ≡ from_le_bytes w32 (take 4 (drop place bytes.now)) }
{
    let front = &bytes[place..place + 4];
    u32::from_le_bytes([front[0], front[1], front[2], front[3]])
}

/// The number that eight bytes at this place are.
fn u64_at(bytes: &[u8], place: usize) -> u64
    requires { place + 8 ≤ length bytes.now }
    ensures { result ≡ from_le_bytes w64 (take 8 (drop place bytes.now)) }
{
    let front = &bytes[place..place + 8];
    u64::from_le_bytes([
        front[0], front[1], front[2], front[3], front[4], front[5], front[6], front[7],
    ])
}
