// SPDX-License-Identifier: Apache-2.0
//! Calls of logical types, which worked cases name: their names and what each answers.
#![tactic(auto)]

mod answers;
mod calls;
mod logical_inputs;

pub use calls::answer;
