// SPDX-License-Identifier: Apache-2.0
//! Values of logical types, between raw values and the items of Arrow's buffers.
#![tactic(auto)]

mod codes;
mod items;
mod numbers;

pub use codes::KindCode;
pub use items::{StoredItem, item_of_number};
pub use numbers::{has_value, is_wide, stored_number};
