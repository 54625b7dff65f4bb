//! The laws of texts: what holds of all of them, whatever calls read them.
//!
//! These functions do nothing when they run. The contract of each is a law over the definitions in
//! `specs/`, and its proof is the law's proof.

ghost use Rattle.filter_sql.specs.TextLaws.{RefusedTextsSayNone, TextsNestSo, TextsSayOneFilter};

/// A text is one filter at most: its tokens are the only ones that it has, and they have one
/// formula, however deep it may nest. A text that is refused for a mistake is none.
pub fn texts_say_one_filter()
    ensures one { TextsSayOneFilter }
    ensures none { RefusedTextsSayNone }
{}

/// The filter of a text in which at most n connectives and parentheses nest is at most `2 * n + 5`
/// connectives high. So a caller knows the depth at which its encoding is written and read.
pub fn texts_nest_so()
    ensures { TextsNestSo }
{}
