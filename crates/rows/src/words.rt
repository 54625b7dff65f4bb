//! Lines and words.
#![tactic(auto, using(crate::proofs::Beginnings::texts))]

ghost use Rattle.std.specs.Prelude.{◌≡◌, ◌≢◌, ◌∷◌, ◌<◌, ℕ, List, [], length, slice_index, IfNone, IfSome};
ghost use Rattle.rows.specs.Words.{lines_of, words_of};

use memchr::memchr_iter;

/// The first line, and what follows its line feed.
pub fn first_line(text: &[u8]) -> (&[u8], &[u8])
    requires { 0 < length text.now }
    ensures lines { lines_of text.now ≡ result.0.now ∷ lines_of result.1.now }
    ensures shorter { length result.1.now < length text.now }
{
    match line_end(text) {
        Some(end) => (&text[..end], &text[end + 1..]),
        None => (text, &[]),
    }
}

/// The offset of the first line feed, if there is one. The iterator finds a near one sooner than
/// `memchr` does.
fn line_end(text: &[u8]) -> Option<usize>
    ensures within { IfSome result (λ i. i < length text.now) }
    ensures found { IfSome result (λ i. slice_index text.now i ≡ 10) }
    ensures first { IfSome result (λ i. (k : ℕ) → k < i → slice_index text.now k ≢ 10) }
    ensures none { IfNone result ((k : ℕ) → k < length text.now → slice_index text.now k ≢ 10) }
{
    memchr_iter(b'\n', text).next()
}

/// The first word and what follows the space after it, if there is a space.
pub fn cut_word(text: &[u8]) -> Option<(&[u8], &[u8])>
    ensures some { IfSome result (λ cut. words_of text.now ≡ cut.0.now ∷ words_of cut.1.now) }
    ensures none { IfNone result (words_of text.now ≡ text.now ∷ []) }
{
    let end = word_end(text)?;
    Some((&text[..end], &text[end + 1..]))
}

/// The offset of the first space, if there is one. Words are short, so it goes byte by byte.
fn word_end(text: &[u8]) -> Option<usize>
    ensures within { IfSome result (λ i. i < length text.now) }
    ensures found { IfSome result (λ i. slice_index text.now i ≡ 32) }
    ensures first { IfSome result (λ i. (k : ℕ) → k < i → slice_index text.now k ≢ 32) }
    ensures none { IfNone result ((k : ℕ) → k < length text.now → slice_index text.now k ≢ 32) }
{
    text.iter().position(|byte| *byte == b' ')
}

/// What follows the word and a space, if the line begins with both.
///
/// `strip_prefix`, once for each, would take 1.4 % more instructions on lines of all commands.
#[inline(always)]
pub fn after_word<'a>(text: &'a [u8], word: &[u8]) -> Option<&'a [u8]>
    requires { (k : ℕ) → k < length word.now → slice_index word.now k ≢ 32 }
    ensures some { IfSome result (λ rest. words_of text.now ≡ word.now ∷ words_of rest.now) }
    ensures none { IfNone result
        ((ws : List (List ℕ)) → words_of text.now ≡ word.now ∷ ws → ws ≡ []) }
{
    let end = word.len();
    if text.len() <= end {
        return None;
    }
    if text[end] != b' ' {
        return None;
    }
    for (i, byte) in word.iter().enumerate() {
        if text[i] != *byte {
            return None;
        }
    }
    Some(&text[end + 1..])
}
