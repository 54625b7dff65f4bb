//! The laws of encodings, as the contracts of functions that do nothing.

ghost use Rattle.filter_encoding.specs.Laws.{LowFiltersNest};
ghost use Rattle.filter_encoding.specs.Words.{EncodingsAreApart};

/// What begins with the encodings of two prepared filters has one version, the same types, the same
/// formula, and one rest. So a prepared filter has one encoding in each version, and no encoding
/// begins another.
pub fn encodings_are_apart()
    ensures { EncodingsAreApart }
{}

/// A filter that can be written at some depth can be written at each depth that is no less than its
/// height: how deep it nests is all that the depth asks.
pub fn low_filters_nest()
    ensures { LowFiltersNest }
{}
