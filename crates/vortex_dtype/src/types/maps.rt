//! The key and value types of maps.

ghost use Rattle.std.specs.Prelude.{◌≡◌, IfOk};
ghost use Rattle.vortex_dtype.specs.Words.{GivesOrNoMemory, RefusesOrNoMemory, key_cause, map_of, type_of};

use super::copies::copy_map;
use super::{DType, MapDType};
use crate::error::{TypeCause, VortexError};
use std::alloc::Global;

impl MapDType {
    /// The map with these key and value types. `BadType` with `NullableKey` exactly if the key
    /// takes a null, tested before any allocation. Otherwise `OutOfMemory` if there is no memory.
    pub fn try_new(
        alloc: Global,
        key: DType,
        value: DType,
        keys_sorted: bool,
    ) -> Result<MapDType, VortexError>
        ensures refused { RefusesOrNoMemory (key_cause (type_of key)) result }
        ensures made { IfOk result (λ map. map_of map
            ≡ record { key = type_of key; value = type_of value; keys_sorted = keys_sorted }) }
    {
        if key.is_nullable() {
            return Err(VortexError::BadType {
                cause: TypeCause::NullableKey,
            });
        }
        Ok(MapDType {
            key: Box::new(alloc, key)?,
            value: Box::new(alloc, value)?,
            keys_sorted,
        })
    }

    /// The key type. It takes no null, since `try_new` refuses one that does.
    pub fn key_dtype(&self) -> &DType
        ensures tree { type_of result.now ≡ (map_of self.now).key }
    {
        &self.key
    }

    /// The value type.
    pub fn value_dtype(&self) -> &DType
        ensures tree { type_of result.now ≡ (map_of self.now).value }
    {
        &self.value
    }

    /// Whether the keys of each map value are sorted.
    pub fn keys_sorted(&self) -> bool
        ensures { result ≡ (map_of self.now).keys_sorted }
    {
        self.keys_sorted
    }

    /// A copy. `OutOfMemory` if there is no memory for it.
    pub fn clone(&self, alloc: Global) -> Result<MapDType, VortexError>
        ensures { GivesOrNoMemory (λ copy. map_of copy ≡ map_of self.now) result }
    {
        copy_map(alloc, self)
    }
}
