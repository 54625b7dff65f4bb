//! Makers over iterators: they ask for no item if the type is of the wrong kind, and the makers of
//! maps stop at the first wrong entry.

ghost use Rattle.std.specs.Prelude.{IfSome};
ghost use Rattle.std.specs.Iterator.{at_most};
ghost use Rattle.vortex_value.specs.Makers.{IsValidEntry};
ghost use Rattle.vortex_value.specs.Values.Scalars.{IsValid};

use crate::fixtures::{I32, map, struct_of_two};
use std::cell::Cell;
use std::process::Abort;
use vortex_dtype::Nullability::NonNullable;
use vortex_dtype::{DType, VortexError};
use vortex_value::Scalar;

/// An integer.
fn seven() -> Scalar
    ensures { IsValid result }
{
    Scalar::primitive(7i32, NonNullable)
}

/// Gives `left` integers, and counts how often it is asked.
#[derive(Drop)]
struct Children<'a> {
    left: u32,
    asked: &'a Cell<u32>,
}

impl<'a> Iterator for Children<'a> {
    type Item = Scalar;

    ghost next_gives = { λ _ given _. IfSome given IsValid };

    ghost remaining = { λ s. at_most s.left };

    fn next(&mut self) -> Option<Scalar> {
        count(self.asked);
        self.left = self.left.checked_sub(1)?;
        Some(seven())
    }
}

/// Gives `left` entries of integers, and counts how often it is asked.
#[derive(Drop)]
struct Entries<'a> {
    left: u32,
    asked: &'a Cell<u32>,
}

impl<'a> Iterator for Entries<'a> {
    type Item = (Scalar, Scalar);

    ghost next_gives = { λ _ given _. IfSome given IsValidEntry };

    ghost remaining = { λ s. at_most s.left };

    fn next(&mut self) -> Option<(Scalar, Scalar)> {
        count(self.asked);
        self.left = self.left.checked_sub(1)?;
        Some((seven(), seven()))
    }
}

fn count(asked: &Cell<u32>) {
    asked.set(asked.get().saturating_add(1));
}

/// The outcome of a maker.
#[derive(Clone, Copy, PartialEq)]
enum Answer {
    Made,
    WrongKind,
    WrongFirst,
    Another,
}

fn answer_of(made: Result<Scalar, VortexError>) -> Answer {
    let answer = match &made {
        Ok(_) => Answer::Made,
        Err(VortexError::WrongKind) => Answer::WrongKind,
        Err(VortexError::WrongChild { index: 0 }) => Answer::WrongFirst,
        Err(_) => Answer::Another,
    };
    drop(made);
    answer
}

/// The outcome of `struct_` with two integers, and how often it asks for one.
fn struct_from_two(rt: &impl AllocGlobal, dtype: DType) -> (Answer, u32) {
    let asked = Cell::new(0);
    let children = Children {
        left: 2,
        asked: &asked,
    };
    let made = Scalar::struct_(rt.alloc(), dtype, children);
    (answer_of(made), asked.get())
}

/// The outcome of `map` with two entries, and how often it asks for one.
fn map_from_two(rt: &impl AllocGlobal, dtype: DType) -> (Answer, u32) {
    let asked = Cell::new(0);
    let entries = Entries {
        left: 2,
        asked: &asked,
    };
    let made = Scalar::map(rt.alloc(), dtype, entries);
    (answer_of(made), asked.get())
}

/// The outcome of `try_map` with two entries, and how often it asks for one.
fn try_map_from_two(rt: &impl AllocGlobal, dtype: DType) -> (Answer, u32) {
    let asked = Cell::new(0);
    let entries = Entries {
        left: 2,
        asked: &asked,
    };
    let made = Scalar::try_map(rt.alloc(), dtype, entries);
    (answer_of(made), asked.get())
}

/// Asserts that the type is refused before an item is asked for.
fn asks_nothing(rt: &impl Abort, (answer, asked): (Answer, u32)) {
    assert!(rt; answer == Answer::WrongKind);
    assert_eq!(rt; asked, 0);
}

/// Asserts that both items are taken; the third time the iterator answers `None`.
fn takes_both(rt: &impl Abort, (answer, asked): (Answer, u32)) {
    assert!(rt; answer == Answer::Made);
    assert_eq!(rt; asked, 3);
}

/// Asserts that the first item is refused before a second is asked for.
fn stops_at_first(rt: &impl Abort, (answer, asked): (Answer, u32)) {
    assert!(rt; answer == Answer::WrongFirst);
    assert_eq!(rt; asked, 1);
}

#[test]
fn structs_of_another_kind_take_no_child(rt: HostRuntime) {
    asks_nothing(&rt, struct_from_two(&rt, DType::Null));
    asks_nothing(&rt, struct_from_two(&rt, I32));
    asks_nothing(&rt, struct_from_two(&rt, map(&rt, I32)));
}

#[test]
fn structs_take_all_children(rt: HostRuntime) {
    let dtype = struct_of_two(&rt, I32, I32);
    takes_both(&rt, struct_from_two(&rt, dtype));
}

#[test]
fn maps_of_another_kind_take_no_entry(rt: HostRuntime) {
    asks_nothing(&rt, map_from_two(&rt, DType::Null));
    asks_nothing(&rt, map_from_two(&rt, I32));
    asks_nothing(&rt, try_map_from_two(&rt, DType::Null));
    asks_nothing(&rt, try_map_from_two(&rt, I32));
}

#[test]
fn maps_are_not_made_of_structs(rt: HostRuntime) {
    asks_nothing(&rt, map_from_two(&rt, struct_of_two(&rt, I32, I32)));
    asks_nothing(&rt, try_map_from_two(&rt, struct_of_two(&rt, I32, I32)));
}

#[test]
fn maps_take_all_entries(rt: HostRuntime) {
    takes_both(&rt, map_from_two(&rt, map(&rt, I32)));
    takes_both(&rt, try_map_from_two(&rt, map(&rt, I32)));
}

#[test]
fn maps_take_no_entry_past_a_wrong_one(rt: HostRuntime) {
    let text = DType::Utf8(NonNullable);
    stops_at_first(&rt, map_from_two(&rt, map(&rt, text)));
    let text = DType::Utf8(NonNullable);
    stops_at_first(&rt, try_map_from_two(&rt, map(&rt, text)));
}
