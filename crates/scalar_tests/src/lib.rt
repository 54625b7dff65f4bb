// SPDX-License-Identifier: Apache-2.0
// SPDX-FileCopyrightText: Copyright the Vortex contributors; ported to Rattle and changed
//! Tests that no worked case can be: iterators that count, readers and writers that fail, rare
//! arguments. They have a crate of their own, so that the crates below are proved once.
#![tactic(auto)]

#[cfg(test)]
mod fixtures;
#[cfg(test)]
mod items;
#[cfg(test)]
mod numbers;
#[cfg(test)]
mod rare_calls;
#[cfg(test)]
mod readme;
#[cfg(test)]
mod sizes;
#[cfg(test)]
mod streams;
#[cfg(test)]
mod texts;
#[cfg(test)]
mod tour;
