// SPDX-License-Identifier: Apache-2.0
//! Laws of statistics that name a logical type, each the contract of a function that does nothing.

ghost use Rattle.named_statistics.specs.Words.{NamesTellTypes, StatisticsTellNames};

/// Types of one name are of one logical type, and a type of no name is of none.
pub fn names_tell_types()
    ensures { NamesTellTypes }
{}

/// Statistics that were written as of one type are read as of no type with another name.
pub fn statistics_tell_names()
    ensures { StatisticsTellNames }
{}
