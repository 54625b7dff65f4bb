//! The raw values of unions.

ghost use Rattle.std.specs.Prelude.{◌≡◌, MatchResult, false};

use crate::copies;
use crate::values::ScalarValue;
use std::alloc::Global;
use vortex_dtype::VortexError;

/// The id of the chosen variant and its value. Without a child it is an inner null.
///
/// Ports `vortex_array::scalar::UnionValue`.
#[cycle(value)]
#[derive(Debug, Drop)]
pub struct UnionValue {
    /// The id of the chosen variant.
    pub type_id: u8,
    /// Its value; `None` for an inner null.
    pub child: Option<Box<ScalarValue>>,
}

#[tactic(auto, using(crate::proofs::ValueSteps::shown))]
impl UnionValue {
    ghost use Rattle.vortex_value.specs.Words.{OutOfMemory, is_absent, is_none, lent_raw, raw_of, raw_union};
    ghost use Rattle.vortex_value.specs.Words.{union_tree};

    /// The value of the variant with this id.
    ///
    /// `OutOfMemory` is its only refusal, and never comes without a child.
    ///
    /// Ports `UnionValue::new`, which is private there and takes memory silently.
    pub fn new(
        alloc: Global,
        type_id: u8,
        child: Option<ScalarValue>,
    ) -> Result<UnionValue, VortexError>
        ensures { MatchResult result
            (λ made. union_tree made ≡ raw_union type_id (raw_of child))
            (λ e. (e ≡ OutOfMemory) × (is_absent (raw_of child) ≡ false)) }
    {
        let child = match child {
            Some(child) => Some(Box::new(alloc, child)?),
            None => None,
        };
        Ok(UnionValue { type_id, child })
    }

    /// The id of the variant.
    pub fn type_id(&self) -> u8
        ensures { result ≡ self.now.type_id }
    {
        self.type_id
    }

    /// The child; `None` exactly for an inner null.
    pub fn child_value(&self) -> Option<&ScalarValue>
        ensures { union_tree self.now ≡ raw_union self.now.type_id (lent_raw result) }
    {
        self.child.as_deref()
    }

    /// A copy of the id and the child.
    ///
    /// `OutOfMemory` is its only refusal, and never comes without a child. Ports the `Clone` of
    /// `UnionValue`.
    pub fn clone(&self, alloc: Global) -> Result<UnionValue, VortexError>
        ensures { MatchResult result
            (λ copy. union_tree copy ≡ union_tree self.now)
            (λ e. (e ≡ OutOfMemory) × (is_none self.now.child ≡ false)) }
    {
        Ok(copies::copy_union(alloc, self)?)
    }
}
