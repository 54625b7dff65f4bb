// SPDX-License-Identifier: Apache-2.0
//! Calls of constant arrays, which worked cases name: their names and what each answers.
#![tactic(auto)]

mod answers;
mod calls;
mod constant_inputs;

pub use calls::answer;
