// SPDX-License-Identifier: Apache-2.0
//! Calls of patterns of `like`, which worked cases name: their names and what each answers.
#![tactic(auto)]

mod calls;
mod pattern_inputs;

pub use calls::answer;
