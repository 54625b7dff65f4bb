//! The laws of keys.
//!
//! These functions do nothing when they run. The contract of each is a law over the definitions in
//! `specs/`, and its proof is the law's proof.

ghost use Rattle.vortex_row.specs.Words.{CastsKeepKeys, KeysAreApart, KeysAreAsLong, KeysAreOrdered};
ghost use Rattle.vortex_row.specs.Words.{OrderIsContentOrder, ValuesHaveNoTyped};

/// Keys compare, byte by byte, as the contents do in their total order: one by one, in a column
/// under any options, and as rows of several columns, the first that differs deciding.
pub fn keys_are_ordered()
    ensures { KeysAreOrdered }
{}

/// The order that `partial_cmp` gives is the total order of contents wherever it gives one. So in a
/// column it is the order of the keys: reversed if descending, and nulls at the end that is asked
/// for.
pub fn order_is_content_order()
    ensures { OrderIsContentOrder }
{}

/// What begins with the keys of two contents, one of which has no variant's child, has one content
/// and one rest: no key is the beginning of another, and no two contents have one key. The same
/// holds in a column, and of rows.
pub fn keys_are_apart()
    ensures { KeysAreApart }
{}

/// What a cast gives has the key of what was cast, and equal contents have one key: also those of
/// scalars of different types.
pub fn casts_keep_keys()
    ensures { CastsKeepKeys }
{}

/// A valid value of a type without variants has no variant's child at any depth.
pub fn values_have_no_typed()
    ensures { ValuesHaveNoTyped }
{}

/// A key has as many bytes under any options as in ascending order, and the key of a row as many as the keys
/// of its values have together.
pub fn keys_are_as_long()
    ensures { KeysAreAsLong }
{}
