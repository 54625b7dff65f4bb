//! The laws of pruning: what holds of each filter and each zone, whatever calls gave them.
//!
//! These functions do nothing when they run. The contract of each is a law over the definitions in
//! `specs/`, and its proof is the law's proof.

ghost use Rattle.filter_pruning.specs.Exactness.{ComparisonsAreExact, ComparisonsOccur, PrefixesAreExact};
ghost use Rattle.filter_pruning.specs.Searching.{SearchesFindAll, ZonesAreSearched};

use vortex_value::laws::{order_is_reversed, order_is_transitive};

/// Between two bounds without parts, a comparison has just the outcomes that it has on the cells
/// which the statistics allow: none is claimed that cannot happen.
pub fn comparisons_are_exact()
    ensures { ComparisonsAreExact }
{
    order_is_reversed();
    order_is_transitive();
}

/// Let the nulls be counted, and both bounds be values of the zone without parts. Then each outcome
/// that a comparison is said to have, it has on some cell of the zone itself. Only one that needs a
/// value equal to the literal may be claimed though there is none.
pub fn comparisons_occur()
    ensures { ComparisonsOccur }
{
    order_is_reversed();
    order_is_transitive();
}

/// Between two bounds without parts, a test for a prefix has just the outcomes that it has on the
/// cells which the statistics allow.
pub fn prefixes_are_exact()
    ensures { PrefixesAreExact }
{
    order_is_reversed();
    order_is_transitive();
}

/// Let a search skip the zones whose rows cannot match, and take those whole whose rows all must.
/// It finds what a search of each row finds: in each zone, and in all zones one after the other.
pub fn searches_find_all()
    ensures zone { ZonesAreSearched }
    ensures zones { SearchesFindAll }
{
    order_is_reversed();
    order_is_transitive();
}
