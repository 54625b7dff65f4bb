//! A search of one of the files that are asked for.

use crate::commands::{Naming, SearchRequest, Wanted};
use crate::lines::Front;
use std::alloc::{AllocError, Global};
use std::fmt::{self, Display, Formatter, Write};

/// What standard input is named where a row or a fault of it is told.
const STANDARD_INPUT: &str = "(standard input)";

/// A search of one file.
#[derive(Clone, Copy)]
pub struct FileSearch<'a, 'b> {
    /// What is sought, in this file and in others.
    pub request: &'a SearchRequest<'b>,
    /// The file, or `-` for standard input.
    pub file: &'a str,
    /// Whether there are no other files.
    pub is_alone: bool,
}

/// How what was found in a file is written.
#[derive(Clone, Copy)]
pub enum Form {
    /// How many rows there are.
    Count,
    /// The rows as they are in the file.
    Rows,
    /// Each row after the number of its record.
    NumberedRows,
    /// Each row as a line, so that it may stand beside those of other files.
    Lines {
        /// Whether the number of its record stands before it.
        has_number: bool,
    },
}

impl FileSearch<'_, '_> {
    /// The name of the file, if it can be opened.
    pub fn path(&self) -> Option<&str> {
        if self.file == "-" {
            None
        } else {
            Some(self.file)
        }
    }

    /// The name of the file where something of it is told.
    pub fn name(&self) -> &str {
        self.path().unwrap_or(STANDARD_INPUT)
    }

    /// Whether the name stands before each row and before a count.
    pub fn has_name(&self) -> bool {
        match self.request.naming {
            Naming::Always => true,
            Naming::Never => false,
            Naming::OfSeveral => !self.is_alone,
        }
    }

    /// What stands before a note on standard error: the name, if there are other files, or if it is wanted
    /// before each row.
    pub fn note(&self) -> Note<'_> {
        if self.is_alone && !self.has_name() {
            Note(None)
        } else {
            Note(Some(self.name()))
        }
    }

    /// What stands before each line: the name of the file and a colon, if the name is wanted.
    pub fn front(&self, alloc: Global, has_number: bool) -> Result<Front, AllocError> {
        let text = if self.has_name() {
            format!(in alloc; "{}:", self.name())?.into_bytes()
        } else {
            Vec::new(alloc)
        };
        Ok(Front { text, has_number })
    }

    /// How what is found is written.
    pub fn form(&self) -> Form {
        let has_number = match self.request.wanted {
            Wanted::Count => return Form::Count,
            Wanted::Rows => false,
            Wanted::NumberedRows => true,
        };
        if self.has_name() || !self.is_alone {
            Form::Lines { has_number }
        } else if has_number {
            Form::NumberedRows
        } else {
            Form::Rows
        }
    }
}

/// What stands before a note: the name of the file, if it is wanted.
#[derive(Clone, Copy)]
pub struct Note<'a>(pub Option<&'a str>);

/// The name and a colon, or nothing.
impl Display for Note<'_> {
    fn fmt<W: Write>(&self, f: &mut Formatter<W>) -> fmt::Result {
        match self.0 {
            Some(name) => write!(f, "{name}: "),
            None => Ok(()),
        }
    }
}
