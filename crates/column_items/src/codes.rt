// SPDX-License-Identifier: Apache-2.0
//! Kinds of columns by their codes.

ghost use Rattle.std.specs.Prelude.{◌≡◌};
ghost use Rattle.column_items.specs.Words.{kind_of_code};

use arrow_columns::Kind;

/// The code of a kind of columns, and of decimals also their precision and scale.
#[derive(Clone, Copy)]
#[repr(C)]
pub struct KindCode {
    /// The code.
    pub code: u8,
    /// Of decimals: how many digits a number has at most. Else it is not read.
    pub precision: u8,
    /// Of decimals: how many of them stand behind the point. Else it is not read.
    pub scale: u8,
}

impl KindCode {
    /// The kind, if there is one.
    pub fn kind(&self) -> Option<Kind>
        ensures { result ≡ kind_of_code self.now }
    {
        Kind::with_code(self.code, self.precision, self.scale)
    }
}
