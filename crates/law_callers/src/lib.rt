// SPDX-License-Identifier: Apache-2.0
// SPDX-FileCopyrightText: Copyright the Vortex contributors; ported to Rattle and changed
//! Callers of the laws of every crate: functions whose contracts follow from the laws and from the
//! contracts of public calls alone. No test is here, so that they are proved once.
#![tactic(auto)]

pub mod column_pieces;
pub mod columns_of_keys;
pub mod constants;
pub mod fillings;
pub mod filter_laws;
pub mod filter_texts;
pub mod float_zones;
pub mod indexes;
pub mod joined_indexes;
pub mod key_laws;
pub mod key_returns;
pub mod keyed;
pub mod literal_places;
pub mod members;
pub mod number_laws;
pub mod orders;
pub mod patterns;
pub mod places;
pub mod plans;
pub mod prepared;
pub mod records;
pub mod round_trips;
pub mod rust_values;
pub mod skipped_zones;
pub mod statistics_laws;
pub mod statistics_names;
pub mod stored_floats;
pub mod type_laws;
pub mod value_laws;
pub mod view_laws;
pub mod words_of_values;
pub mod words_to_rows;
pub mod zone_statistics;
pub mod zones;
