//! Values as members: by the hashes of their keys.

ghost use Rattle.std.specs.Prelude.{◌≡◌, ◌↔◌, ◌⊎◌, ◌∷◌, ◌++◌, Err, IfErr, IfOk, List, OnErr, OnOk, [], false, true};
ghost use Rattle.value_membership.specs.Words.{Cell, HasKey, HasMembers, HasVariant, OutOfMemory, cell_of_ref, hash_of};
ghost use Rattle.value_membership.specs.Words.{ref_content, ref_type, with_cell};

use membership::{SplitBlockBloomFilter, xxh64};
use vortex_row::{RowError, SortOptions, append_key};
use vortex_value::ScalarRef;

/// The hash of a value: of its key, which a cast never changes. The buffer is overwritten with the key.
///
/// `HasVariant` exactly if the value has no key: a variant stands in its type or in the value, at any
/// depth. Else `OutOfMemory` is the only refusal.
pub fn hash_value(value: ScalarRef<'_>, key: &mut Vec<u8>) -> Result<u64, RowError>
    ensures hash { IfOk result (λ hash. hash ≡ hash_of (cell_of_ref value.entry)) }
    ensures keyed { OnOk result (HasKey (ref_type value.entry) (ref_content value.entry)) }
    ensures variant { (result ≡ Err HasVariant) ↔ ¬ (HasKey (ref_type value.entry) (ref_content value.entry)) }
    ensures refused { IfErr result (λ e. (e ≡ HasVariant) ⊎ (e ≡ OutOfMemory)) }
{
    key.clear();
    append_key(value, SortOptions::default(), key)?;
    Ok(xxh64(key))
}

/// Inserts a value into the members of its column. A null is no value, and is not inserted. The buffer
/// is overwritten with the key.
///
/// It is refused as by `hash_value`, also for a null: the members are then as they were.
pub fn insert_value(
    members: &mut SplitBlockBloomFilter,
    value: ScalarRef<'_>,
    key: &mut Vec<u8>,
) -> Result<(), RowError>
    ensures inserted { OnOk result (members.new ≡ with_cell members.old (cell_of_ref value.entry)) }
    ensures member { OnOk result ((cells : List Cell) → HasMembers members.old cells
        → HasMembers members.new (cells ++ cell_of_ref value.entry ∷ [])) }
    ensures variant { (result ≡ Err HasVariant) ↔ ¬ (HasKey (ref_type value.entry) (ref_content value.entry)) }
    ensures refused { IfErr result (λ e. (e ≡ HasVariant) ⊎ (e ≡ OutOfMemory)) }
    ensures unchanged { OnErr result (members.new ≡ members.old) }
{
    let hash = hash_value(value, key)?;
    if !value.is_null() {
        members.insert_hash(hash);
    }
    Ok(())
}
