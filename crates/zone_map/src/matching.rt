//! Names in filters that no column has exactly.

use filter_sql::{Column, word_in};
use std::alloc::{AllocError, Global};
use strsim::levenshtein;

/// The name of a column that is nearest to the one at this offset of a filter's text, if one is near: at most a
/// third of its letters differ, or one.
pub fn nearest_name<'a>(
    alloc: Global,
    text: &str,
    offset: usize,
    columns: &'a [Column],
) -> Result<Option<&'a str>, AllocError> {
    let Some((_, word, _)) = word_in(text, offset) else {
        return Ok(None);
    };
    let mut least = (word.len() / 3).max(1).saturating_add(1);
    let mut nearest = None;
    for column in columns {
        let edits = levenshtein(alloc, word, &column.name)?;
        if edits < least {
            least = edits;
            nearest = Some(column.name.as_str());
        }
    }
    Ok(nearest)
}
