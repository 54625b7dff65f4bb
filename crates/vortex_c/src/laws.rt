//! Laws of the exports, as contracts of functions that do nothing. No crate can depend on this one,
//! so nothing calls them.

ghost use Rattle.vortex_c.specs.FilterLaws.{FiltersAreOfWords};
ghost use Rattle.vortex_c.specs.Statuses.{AreStatuses};

use filter_encoding::laws::encodings_are_apart;

/// The status of each name is the number that callers in other languages have.
pub fn statuses_are_numbers()
    ensures { AreStatuses }
{}

/// What `doqallin_prepare_filter` wrote is read by the other calls at the depth that it was given and
/// at any greater one, unless memory is refused. Its masks and outcomes are those of the filter that the words are.
pub fn filters_are_of_words()
    ensures { FiltersAreOfWords }
{
    encodings_are_apart();
}
