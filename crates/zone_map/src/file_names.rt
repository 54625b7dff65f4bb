//! The files that words name. A pattern that the shell left alone, as in quotes, is expanded here.

use crate::program_errors::{FileError, ProgramError};
use std::alloc::{AllocError, Global};
use std::fs;
use std::io::ErrorKind;

/// The files that words name, but for the indexes of others of them, which patterns such as `logs/*`
/// give, too.
pub fn files_named(rt: &HostRuntime, words: &[&str]) -> Result<Vec<String>, ProgramError> {
    let mut files = Vec::new(rt.alloc());
    for word in words {
        add_files(rt, word, &mut files)?;
    }
    Ok(without_indexes(rt.alloc(), &files)?)
}

/// Adds the files that match a word, in the order of their names, or the word as it stands if none does.
fn add_files(rt: &HostRuntime, word: &str, files: &mut Vec<String>) -> Result<(), ProgramError> {
    let mut matching = files_matching(rt, word)?;
    if matching.is_empty() {
        matching.push(String::from_str(rt.alloc(), word)?)?;
    }
    matching.sort()?;
    files.append(&mut matching)?;
    Ok(())
}

/// The files that match a pattern: those of its folder whose name is as its name says. None are of a
/// folder that cannot be opened.
fn files_matching(rt: &HostRuntime, word: &str) -> Result<Vec<String>, ProgramError> {
    let mut files = Vec::new(rt.alloc());
    let (folder, pattern) = cut_name(word);
    if !pattern.contains('*') {
        return Ok(files);
    }
    let Ok(entries) = fs::read_dir(rt, if folder.is_empty() { "." } else { folder }) else {
        return Ok(files);
    };
    for entry in entries {
        match entry {
            Ok(entry) => {
                let name = entry.file_name();
                if is_match(pattern, name) {
                    files.push(format!(in rt.alloc(); "{folder}{name}")?)?;
                }
            }
            Err(error) if error.kind() == ErrorKind::InvalidFilename => {}
            Err(error) => {
                return Err(ProgramError::of_file(rt.alloc(), word, FileError::System(error)));
            }
        }
    }
    Ok(files)
}

/// The folder of a path, with its slash, and the name in it.
fn cut_name(path: &str) -> (&str, &str) {
    let name = match path.rsplit_once('/') {
        Some((_, name)) => name,
        None => path,
    };
    path.split_at_checked(path.len().saturating_sub(name.len()))
        .unwrap_or(("", path))
}

/// Whether a name matches a pattern, in which `*` stands for any characters, but for a dot at the
/// beginning.
fn is_match(pattern: &str, name: &str) -> bool {
    if name.starts_with('.') && !pattern.starts_with('.') {
        return false;
    }
    match pattern.split_once('*') {
        Some((first, others)) => match name.strip_prefix(first) {
            Some(rest) => has_pieces(others, rest),
            None => false,
        },
        None => pattern == name,
    }
}

/// Whether a text has the pieces between stars in this order, and ends with the last of them.
fn has_pieces(pieces: &str, text: &str) -> bool {
    let (inner, last) = pieces.rsplit_once('*').unwrap_or(("", pieces));
    let mut rest = match text.strip_suffix(last) {
        Some(rest) => rest,
        None => return false,
    };
    for piece in inner.split('*') {
        if !piece.is_empty() {
            match rest.split_once(piece) {
                Some((_, after)) => rest = after,
                None => return false,
            }
        }
    }
    true
}

/// The files but for the indexes of others of them.
fn without_indexes(alloc: Global, files: &[String]) -> Result<Vec<String>, AllocError> {
    let mut kept = Vec::new(alloc);
    for file in files {
        if !is_index_among(file, files) {
            kept.push(String::from_str(alloc, file)?)?;
        }
    }
    Ok(kept)
}

/// Whether a file has the name of the index of one of these.
fn is_index_among(name: &str, files: &[String]) -> bool {
    match name.strip_suffix(".zones") {
        Some(file) => files.iter().any(|other| other.as_str() == file),
        None => false,
    }
}
