//! The truth values of a block of rows, a word at a time.

ghost use Rattle.std.specs.Prelude.{◌≡◌, ◌<◌, ◌*◌, ◌↔◌, ℕ, IfOk, IsTrue, Some, false, true, length};
ghost use Rattle.truth_bitmaps.specs.Truths.{AreAll, truth_and, truth_at, truth_not, truth_or, word_count};

use crate::words::TruthWord;
use std::alloc::{AllocError, Global};

/// How many words so many rows take.
pub fn word_count(count: usize) -> usize
    ensures { result ≡ word_count count }
{
    count.div_ceil(64)
}

/// The words of so many rows, of which it is False.
pub fn false_words(alloc: Global, count: usize) -> Result<Vec<TruthWord>, AllocError>
    ensures rows { IfOk result (λ words. AreAll (Some false) words.items (64 * word_count count)) }
    ensures size { IfOk result (λ words. length words.items ≡ word_count count) }
{
    let mut words = Vec::with_capacity(alloc, word_count(count))?;
    for _word in 0..word_count(count) {
        words.push(TruthWord {
            is_true: 0,
            is_unknown: 0,
        })?;
    }
    Ok(words)
}

/// Puts one truth value in place of all: None is Unknown.
pub fn fill_words(words: &mut [TruthWord], truth: Option<bool>)
    ensures rows { AreAll truth words.new (64 * length words.old) }
    ensures size { length words.new ≡ length words.old }
{
    for k in 0..words.len() {
        words[k] = TruthWord::of(truth);
    }
}

/// False for each row of which one of the two is, else Unknown if one is.
pub fn and_words(words: &mut [TruthWord], others: &[TruthWord])
    requires even { length words.old ≡ length others.now }
    ensures rows { (row : ℕ) → row < 64 * length words.old
        → truth_at words.new row ≡ truth_and (truth_at words.old row) (truth_at others.now row) }
    ensures size { length words.new ≡ length words.old }
{
    for k in 0..words.len() {
        words[k] = words[k].and(others[k]);
    }
}

/// True for each row of which one of the two is, else Unknown if one is.
pub fn or_words(words: &mut [TruthWord], others: &[TruthWord])
    requires even { length words.old ≡ length others.now }
    ensures rows { (row : ℕ) → row < 64 * length words.old
        → truth_at words.new row ≡ truth_or (truth_at words.old row) (truth_at others.now row) }
    ensures size { length words.new ≡ length words.old }
{
    for k in 0..words.len() {
        words[k] = words[k].or(others[k]);
    }
}

/// True for each row of which it is False, and False where it is True; Unknown stays.
pub fn not_words(words: &mut [TruthWord])
    ensures rows { (row : ℕ) → row < 64 * length words.old
        → truth_at words.new row ≡ truth_not (truth_at words.old row) }
    ensures size { length words.new ≡ length words.old }
{
    for k in 0..words.len() {
        words[k] = words[k].negate();
    }
}

/// Whether it is False of each row: then no `and` can change it.
pub fn are_all_false(words: &[TruthWord]) -> bool
    ensures { IsTrue result ↔ AreAll (Some false) words.now (64 * length words.now) }
{
    for word in words {
        if !word.is_false_of_all() {
            return false;
        }
    }
    true
}

/// Whether it is True of each row: then no `or` can change it.
pub fn are_all_true(words: &[TruthWord]) -> bool
    ensures { IsTrue result ↔ AreAll (Some true) words.now (64 * length words.now) }
{
    for word in words {
        if !word.is_true_of_all() {
            return false;
        }
    }
    true
}
