//! The names of columns.

ghost use Rattle.std.specs.Prelude.{◌≡◌, ◌≢◌, ◌<◌, ◌⊎◌, [], IfNone, IfOk, IfSome, MatchBool, All};
ghost use Rattle.std.specs.Prelude.{AllPairs, Contains, length, slice_index_or, string_bytes};
ghost use Rattle.csv_columns.specs.Names.{AreGivenOrMade, IsFirstFree, IsLine, IsName, KeepsNames, made_up, texts};

use std::alloc::{AllocError, Global};

/// Whether a column may have this name: one with a byte, and without a line feed.
pub fn is_name(text: &str) -> bool
    ensures { MatchBool result (IsName text.now) (¬ (IsName text.now)) }
{
    !text.is_empty() && is_line(text)
}

/// Whether a text has no line feed.
pub fn is_line(text: &str) -> bool
    ensures { MatchBool result (IsLine text.now) (¬ (IsLine text.now)) }
{
    for byte in text.as_bytes() {
        if *byte == b'\n' {
            return false;
        }
    }
    true
}

/// Whether this name is one of these.
pub(crate) fn stands_in(names: &[String], name: &str) -> bool
    ensures { MatchBool result (Contains (texts names.now) name.now) (¬ (Contains (texts names.now) name.now)) }
{
    for one in names {
        if one.as_str() == name {
            return true;
        }
    }
    false
}

/// The names of so many columns, of which some are given. Each given one is kept that may be a name and
/// that no column before has. Another column has its number behind `$`, or `line` where lines are not
/// divided; and as many `_` behind that as make a name that no other column has.
pub(crate) fn names_for(
    alloc: Global,
    are_divided: bool,
    count: usize,
    given: &[String],
) -> Result<Vec<String>, AllocError>
    ensures count { IfOk result (λ names. length names.items ≡ count) }
    ensures valid { IfOk result (λ names. All IsName (texts names.items)) }
    ensures distinct { IfOk result (λ names. AllPairs (λ a b. a ≢ b) (texts names.items)) }
    ensures kept { IfOk result (λ names. KeepsNames (texts given.now) (texts names.items)) }
    ensures made { IfOk result (λ names. AreGivenOrMade are_divided (texts given.now) (texts names.items)) }
{
    let mut names = Vec::new(alloc);
    for place in 0..count {
        let name = name_at(alloc, are_divided, place, given, &names)?;
        names.push(name)?;
    }
    Ok(names)
}

/// The name of the column at this place, where the columns before it have these names.
fn name_at(
    alloc: Global,
    are_divided: bool,
    place: usize,
    given: &[String],
    names: &[String],
) -> Result<String, AllocError>
    ensures valid { IfOk result (λ name. IsName (string_bytes name)) }
    ensures other { IfOk result (λ name. ¬ (Contains (texts names.now) (string_bytes name))) }
    // It is given only here.
    ensures own { IfOk result (λ name. Contains (texts given.now) (string_bytes name)
        → string_bytes name ≡ slice_index_or (texts given.now) place []) }
    ensures kept { IfOk result (λ name. place < length given.now
        → IsName (slice_index_or (texts given.now) place [])
        → ¬ (Contains (texts names.now) (slice_index_or (texts given.now) place []))
        → string_bytes name ≡ slice_index_or (texts given.now) place []) }
    ensures made { IfOk result (λ name. (string_bytes name ≡ slice_index_or (texts given.now) place [])
        ⊎ IsFirstFree (made_up are_divided place) (texts given.now) (texts names.now) (string_bytes name)) }
{
    match given_name(place, given, names) {
        Some(name) => {
            let name = String::from_str(alloc, name)?;
            Ok(name)
        }
        None => {
            let first = first_name(alloc, are_divided, place)?;
            let name = free_name(first, given, names)?;
            Ok(name)
        }
    }
}

/// The name that is given for this place, if it is one, and none of those before it.
fn given_name<'a>(place: usize, given: &'a [String], names: &[String]) -> Option<&'a str>
    ensures is { IfSome result (λ name. name.now ≡ slice_index_or (texts given.now) place []) }
    ensures valid { IfSome result (λ name. IsName name.now) }
    ensures other { IfSome result (λ name. ¬ (Contains (texts names.now) name.now)) }
    ensures none { IfNone result (place < length given.now
        → IsName (slice_index_or (texts given.now) place [])
        → Contains (texts names.now) (slice_index_or (texts given.now) place [])) }
{
    if place >= given.len() {
        return None;
    }
    let name = given[place].as_str();
    if is_name(name) && !stands_in(names, name) {
        Some(name)
    } else {
        None
    }
}

/// The name of the column at this place where none is given, unless another column has that.
fn first_name(alloc: Global, are_divided: bool, place: usize) -> Result<String, AllocError>
    ensures { IfOk result (λ name. string_bytes name ≡ made_up are_divided place) }
{
    if are_divided {
        format!(in alloc; "${}", place.saturating_add(1))
    } else {
        String::from_str(alloc, "line")
    }
}

/// The name with as many `_` behind it as make it another one than all of these.
fn free_name(first: String, given: &[String], names: &[String]) -> Result<String, AllocError>
    ensures { IfOk result (λ name.
        IsFirstFree (string_bytes first) (texts given.now) (texts names.now) (string_bytes name)) }
{
    let mut name = first;
    while stands_in(given, &name) || stands_in(names, &name) {
        name.push('_')?;
    }
    Ok(name)
}
