// SPDX-License-Identifier: Apache-2.0
//! Words of decimals, written.

ghost use Rattle.std.specs.Prelude.{◌≡◌, ◌++◌, OnOk, IfOk, string_bytes};
ghost use Rattle.logical_types.specs.Decimals.{decimal_text, point_text, sized_text};

use std::alloc::{AllocError, Global};

/// Appends a number with its last places behind the point.
fn push_sized(
    alloc: Global,
    text: &mut String,
    places: u8,
    point: &str,
    number: u128,
) -> Result<(), AllocError>
    ensures { OnOk result (string_bytes text.new ≡ string_bytes text.old ++ sized_text places point.now number) }
{
    if places == 0 {
        let whole = format!(in alloc; "{number}")?;
        text.push_str(whole.as_str())?;
        return text.push_str(point);
    }
    push_sized(alloc, text, places - 1, point, number / 10)?;
    text.push((b'0' + (number % 10) as u8) as char)
}

/// The word of a number at a scale.
pub fn text_of_decimal(alloc: Global, number: i128, scale: u8) -> Result<String, AllocError>
    ensures { IfOk result (λ text. string_bytes text ≡ decimal_text scale number) }
{
    let mut text = String::new(alloc);
    if number < 0 {
        text.push_str("-")?;
    }
    let point = if scale == 0 { "" } else { "." };
    push_sized(alloc, &mut text, scale, point, number.unsigned_abs())?;
    Ok(text)
}
