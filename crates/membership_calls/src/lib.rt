// SPDX-License-Identifier: Apache-2.0
//! Calls of filters of membership, which worked cases name: their names and what each answers.
#![tactic(auto)]

mod calls;
mod membership_inputs;

pub use calls::answer;
