//! A call of the file that docs/RATTLE.md shows. Cases have the casts of the other one.

use crate::tour::may_contain;

#[test]
fn a_word_outside_of_the_bounds_is_ruled_out(rt: HostRuntime) {
    let least = "apple";
    let greatest = "cherry pie with cream";
    let inside = may_contain(rt.alloc(), greatest, least, "cherry").expect(&rt, "bounds");
    let above = may_contain(rt.alloc(), greatest, least, "zucchini").expect(&rt, "bounds");
    let below = may_contain(rt.alloc(), least, greatest, "ant").expect(&rt, "bounds");
    let bound = may_contain(rt.alloc(), least, greatest, "cherry pie with!").expect(&rt, "bounds");
    assert!(rt; inside);
    assert!(rt; !above);
    assert!(rt; !below);
    assert!(rt; bound);
}
