// SPDX-License-Identifier: Apache-2.0
// SPDX-FileCopyrightText: Copyright the Vortex contributors; ported to Rattle and changed
//! Casts, bounds, pruning, filters, keys, statistics, indexes and searches in files for callers from C: the static library
//! `libdoqallin`.
//!
//! Most calls answer a status. Their clauses say what each status means, and what was written.
#![tactic(auto)]

mod bounds;
mod column_bounds;
mod column_casts;
mod depth;
mod fault;
mod filters;
mod giving;
mod index_cuts;
mod index_zones;
mod indexes;
mod integers;
mod keys;
mod keys_back;
pub mod laws;
mod parts;
mod search_columns;
mod search_faults;
mod searches;
mod setup_kinds;
mod setups;
mod sql;
mod statistics;
mod status;
mod version;
mod zone_making;
mod zones;
