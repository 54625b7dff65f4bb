// SPDX-License-Identifier: Apache-2.0
// SPDX-FileCopyrightText: Copyright the Vortex contributors; ported to Rattle and changed
//! Pruning by truncated bounds: what a reader keeps of a zone of a column, to know without reading
//! the zone which values are not in it.
#![tactic(auto)]

mod zone_bounds;

pub use zone_bounds::ZoneBounds;
