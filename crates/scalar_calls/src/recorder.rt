//! A hasher that records what it is fed.

ghost use Rattle.std.specs.Prelude.{◌%◌, ◌*◌, ◌^◌, bit_xor, fold};

use std::hash::{Hash, Hasher};

/// A hasher that keeps a digest (FNV-1a) of all bytes in order. Two digests that differ show that
/// different bytes were fed.
#[derive(Drop)]
struct Recorder(u64);

impl Hasher for Recorder {
    ghost write = { λ s bytes. record { 0 = fold (λ h b. (bit_xor h b * 1099511628211) % 2 ^ 64) s.0 bytes } };

    ghost finish = { λ s. s.0 };

    fn finish(&self) -> u64 {
        self.0
    }

    fn write(&mut self, bytes: &[u8]) {
        for b in bytes {
            self.0 = (self.0 ^ (*b as u64)).wrapping_mul(1099511628211);
        }
    }
}

/// The digest of the bytes that a value feeds.
pub fn fed<T: Hash>(value: &T) -> u64 {
    let mut recorder = Recorder(14695981039346656037);
    value.hash(&mut recorder);
    recorder.finish()
}
