//! Days, of the words that most files have.

ghost use Rattle.std.specs.Prelude.{◌≡◌, ◌<◌, [], ◌∷◌, IfSome};
ghost use Rattle.jiff_fmt.specs.Text.{pad2};
ghost use Rattle.logical_types.specs.Days.{IsDayWord};

use jiff_core::civil::Date;

/// The day that a word of ten bytes writes, as `2026-03-01`. None of others, of which some are days too: those of
/// years below zero. It takes a fifth of the instructions that a reader of all forms of dates takes.
pub(crate) fn plain_day(word: &[u8]) -> Option<i32>
    ensures { IfSome result (IsDayWord word.now) }
{
    let [c1, c2, y1, y2, b'-', m1, m2, b'-', d1, d2] = word else {
        return None;
    };
    let century = two_digits(*c1, *c2)?;
    let year = two_digits(*y1, *y2)?;
    let month = two_digits(*m1, *m2)?;
    let day = two_digits(*d1, *d2)?;
    let year = century as i16 * 100 + year as i16;
    match Date::new(year, month as i8, day as i8) {
        Ok(date) => Some(date.to_unix_epoch_day()),
        Err(_) => None,
    }
}

/// The number that two digits write.
fn two_digits(tens: u8, ones: u8) -> Option<u8>
    ensures text { IfSome result (λ number. pad2 number ≡ tens ∷ ones ∷ []) }
    ensures small { IfSome result (λ number. number < 100) }
{
    if tens.is_ascii_digit() && ones.is_ascii_digit() {
        Some((tens - b'0') * 10 + (ones - b'0'))
    } else {
        None
    }
}
