//! The laws of statistics: what holds of all of them, whatever calls gave them.
//!
//! These functions do nothing when they run. The contract of each is a law over the definitions in
//! `specs/`, and its proof is the law's proof.

ghost use Rattle.vortex_statistics.specs.Words.{AnyGroupingIsRight, LooserBoundsAreRight};

use vortex_value::laws::{order_is_reversed, order_is_transitive};

/// If the statistics of each piece are right, what is merged of them is right for all pieces, one
/// after the other, in whatever grouping they are merged.
pub fn any_grouping_is_right()
    ensures { AnyGroupingIsRight }
{
    order_is_reversed();
    order_is_transitive();
}

/// Statistics stay right if their bounds are loosened, as by truncation, or dropped.
pub fn looser_bounds_are_right()
    ensures { LooserBoundsAreRight }
{
    order_is_reversed();
    order_is_transitive();
}
