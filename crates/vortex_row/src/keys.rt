//! The key of a scalar: how long it is, and how it is appended and compared.
#![tactic(auto, using(crate::proofs::KeySteps::shown))]

ghost use Rattle.std.specs.Prelude.{◌+◌, ◌++◌, ◌≡◌, ◌≤◌, ◌↔◌, ◌⊎◌, ◌<◌, Err, IfErr, IsOk, OnErr, OnOk, length, true};
ghost use Rattle.vortex_row.specs.Words.{HasAppended, HasKey, HasNoTyped, HasNoVariant, HasVariant, IsHeld};
ghost use Rattle.vortex_row.specs.Words.{OutOfMemory, capped, key, key_with, nat_cmp, ref_content, ref_type, slice_cmp};
ghost use Rattle.vortex_row.specs.Words.{vec_capacity, vec_len};

use crate::encode::put_column;
use crate::error::RowError;
use crate::lengths::length;
use crate::options::SortOptions;
use crate::variants::expect_key;
use std::cmp::Ordering;
use vortex_value::ScalarRef;

/// The order of two keys, byte by byte: that of what they are the keys of.
pub fn compare_keys(x: &[u8], y: &[u8]) -> Ordering
    ensures { result ≡ slice_cmp nat_cmp x.now y.now }
{
    x.cmp(y)
}

/// Whether a scalar has a key: no variant stands in its type, nor in its value, at any depth.
pub fn has_key(value: ScalarRef<'_>) -> bool
    ensures { (result ≡ true) ↔ HasKey (ref_type value.entry) (ref_content value.entry) }
{
    match expect_key(value) {
        Ok(()) => true,
        Err(_) => false,
    }
}

/// How many bytes the key of a scalar has, under any options. It is the greatest `usize` if the key
/// has more. A variant, which has no key, counts as one byte.
pub fn key_length(value: ScalarRef<'_>) -> usize
    ensures { result ≡ capped (length (key (ref_content value.entry))) }
{
    length(value.value())
}

/// What is appended before a key is written there.
static ZEROS: [u8; 1024] = [0; 1024];

/// Appends so many zeros, in capacity that was reserved.
fn append_zeros(count: usize, out: &mut Vec<u8>)
    requires { vec_len out.old + count ≤ vec_capacity out.old }
    ensures { HasAppended count out.old out.new }
{
    let mut missing = count;
    while missing > 0 {
        let step = missing.min(ZEROS.len());
        if out.extend_from_slice(&ZEROS[..step]).is_err() {
            unreachable!();
        }
        missing -= step;
    }
}

/// Reserves memory for so many bytes more, and appends as many. `OutOfMemory` if there is none.
pub(crate) fn extend(count: usize, out: &mut Vec<u8>) -> Result<(), RowError>
    ensures appended { OnOk result (HasAppended count out.old out.new) }
    ensures refused { IfErr result
        (λ e. (e ≡ OutOfMemory) × (vec_capacity out.old < vec_len out.old + count)) }
    ensures unchanged { OnErr result (out.new.items ≡ out.old.items) }
{
    out.reserve(count)?;
    append_zeros(count, out);
    Ok(())
}

/// Appends the key of a scalar, in a column that is sorted so, and nothing else.
///
/// `HasVariant` exactly if a variant stands in the type or in the value, at any depth. Else
/// `OutOfMemory` is the only refusal, and never comes if `out` has capacity for the key. After a
/// refusal `out` has the bytes that it had. The value need not be valid for the type.
pub fn append_key(
    value: ScalarRef<'_>,
    options: SortOptions,
    out: &mut Vec<u8>,
) -> Result<(), RowError>
    ensures appended { OnOk result
        (out.new.items ≡ out.old.items ++ key_with options (ref_content value.entry)) }
    ensures held { OnOk result (IsHeld (ref_content value.entry)) }
    ensures ordered { OnOk result (HasNoVariant (ref_type value.entry)) }
    ensures untyped { OnOk result (HasNoTyped (ref_content value.entry)) }
    ensures variant { (result ≡ Err HasVariant) ↔ ¬ (HasKey (ref_type value.entry) (ref_content value.entry)) }
    ensures refused { IfErr result (λ e. (e ≡ HasVariant) ⊎ (e ≡ OutOfMemory)) }
    ensures room { HasKey (ref_type value.entry) (ref_content value.entry)
        → vec_len out.old + length (key (ref_content value.entry)) ≤ vec_capacity out.old
        → IsOk result }
    ensures unchanged { OnErr result (out.new.items ≡ out.old.items) }
{
    expect_key(value)?;
    let start = out.len();
    extend(key_length(value), out)?;
    put_column(value.value(), options, start, out.as_mut_slice());
    Ok(())
}
