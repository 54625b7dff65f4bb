// SPDX-License-Identifier: Apache-2.0
// SPDX-FileCopyrightText: Copyright the Vortex contributors; ported to Rattle and changed
//! The lines of the worked cases: how what a call is given is read, how what it answers is written,
//! and how the two are told from a second reading.
#![tactic(auto)]

mod answers;
mod given;
mod inputs;
mod line;
mod read;
mod runs;
mod same;
mod tokens;
mod valid;
mod write;

pub use answers::{
    Answer, CallResult, WriteAnswer, buffer_bytes, buffer_text, or_none, scalar_or_none, text_of,
};
pub use given::{
    Given, Input, no_scalar, take_bytes, take_entries, take_fields, take_scalar, take_scalars,
    take_text, take_type,
};
pub use inputs::{Inputs, Named, put};
pub use line::{Line, LineAnswer, LineResult};
pub use read::lists::{Item, read_list};
pub use read::numbers::read_natural;
pub use read::read_named;
pub use read::texts::{no_bytes, read_bytes, read_name};
pub use read::types::{Fields, copy_type, read_type, struct_fields};
pub use read::values::{read_scalar, read_value};
pub use read::words::{RustLeaf, RustType, TextType, View};
pub use runs::Run;
pub use same::{same_as_lent, same_raws, same_scalar, same_scalars};
pub use tokens::Tokens;
pub use valid::{validate, validate_all, validate_entries};
pub use write::output::Output;
pub use write::refusals::write_count;
pub use write::types::write_type;
pub use write::values::{write_bytes, write_places, write_raw, write_scalar, write_scalars};
pub use write::words::{order_word, truth_word};
