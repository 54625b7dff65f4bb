// SPDX-License-Identifier: Apache-2.0
//! The keys of the rows of constant arrays.

ghost use Rattle.std.specs.Prelude.{◌+◌, ◌++◌, ◌≡◌, ◌≤◌, ◌↔◌, ◌⊎◌, Err, IfErr, IsOk, OnErr, OnOk, length, replicate};
ghost use Rattle.constant_arrays.specs.Words.{HasKey, items, key, key_with, row_keys, scalar_content, scalar_of};
ghost use Rattle.constant_arrays.specs.Words.{scalar_type, vec_capacity, vec_len};
ghost use Rattle.vortex_row.specs.declared.error.RowError.TheVariants.{HasVariant, OutOfMemory};

use crate::array::ConstantArray;
use vortex_row::{RowError, SortOptions, append_key};
use vortex_value::ScalarRef;

impl ConstantArray {
    /// Appends the key that each row has in a column that is sorted so, once: the keys of all rows are
    /// as many copies.
    ///
    /// `HasVariant` exactly if a variant stands in the type or in the scalar, at any depth. Else
    /// `OutOfMemory` is the only refusal, and never comes if `out` has capacity for the key. After a
    /// refusal `out` has the bytes that it had.
    pub fn append_key(&self, options: SortOptions, out: &mut Vec<u8>) -> Result<(), RowError>
        ensures appended { OnOk result
            (out.new.items ≡ out.old.items ++ key_with options (scalar_content (scalar_of self.now))) }
        ensures rows { row_keys options (items self.now)
            ≡ replicate (length (items self.now)) (key_with options (scalar_content (scalar_of self.now))) }
        ensures variant { (result ≡ Err HasVariant)
            ↔ ¬ (HasKey (scalar_type (scalar_of self.now)) (scalar_content (scalar_of self.now))) }
        ensures refused { IfErr result (λ e. (e ≡ HasVariant) ⊎ (e ≡ OutOfMemory)) }
        ensures room { HasKey (scalar_type (scalar_of self.now)) (scalar_content (scalar_of self.now))
            → vec_len out.old + length (key (scalar_content (scalar_of self.now))) ≤ vec_capacity out.old
            → IsOk result }
        ensures unchanged { OnErr result (out.new.items ≡ out.old.items) }
    {
        let value = ScalarRef::of(&self.scalar);
        append_key(value, options, out)
    }
}
