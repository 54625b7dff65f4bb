// SPDX-License-Identifier: Apache-2.0
//! Decimal numbers as integers, from and to words: 12.34 at scale 2 is 1234.

mod places;
mod printing;
mod reading;
mod storing;

pub use places::{DecimalPlace, place_among_values, place_of_word};
pub use printing::text_of_decimal;
pub use reading::decimal_of_word;
pub use storing::{bytes_of_decimal, decimal_of_bytes};
