//! An index is loaded, and a filter read over its columns.

use crate::column_lists::columns_text;
use crate::file_searches::FileSearch;
use crate::files::{index_name, stamp_of};
use crate::index_files::{IndexError, IndexFile};
use crate::matching::nearest_name;
use crate::program_errors::{About, BAD_DELIMITER, BadFilter, FileError, ProgramError};
use csv_columns::Setup;
use filter_sql::{Column, MAX_DEPTH, ParseError, filter_of_words};
use record_rows::{Schema, dtype_of};
use record_search::{RowDescriber, RowFilter};
use std::alloc::{AllocError, Global};
use std::fs::{self, File};
use std::io::ErrorKind;
use vortex_filter::Filter;
use zone_index::{Index, ReadAt, ReadError, Root};

/// An index, and how its file is read.
#[derive(Drop)]
pub struct Loaded {
    /// The index.
    pub index: Index,
    /// What it keeps beside its zones.
    pub setup: Setup,
}

/// The index of a file that has one.
pub fn load_there(rt: &HostRuntime, file: &str) -> Result<Loaded, ProgramError> {
    let name = index_name(rt.alloc(), file)?;
    match open_index(rt, &name)? {
        Some(mut file) => loaded_from(rt.alloc(), &name, &mut file),
        None => Err(ProgramError::of_file(rt.alloc(), file, FileError::NoIndex)),
    }
}

/// The file of an index, if it is there. No link is followed.
fn open_index(rt: &HostRuntime, name: &str) -> Result<Option<IndexFile<File>>, ProgramError> {
    refuse_link(rt, name)?;
    match File::open(rt, name) {
        Ok(file) => {
            let length = stamp_of(rt.alloc(), name, &file)?.length;
            Ok(Some(IndexFile::new(file, length)))
        }
        Err(error) if error.kind() == ErrorKind::NotFound => Ok(None),
        Err(error) => Err(ProgramError::of_file(rt.alloc(), name, FileError::System(error))),
    }
}

/// Refuses a link of this name, so that no other file is taken for an index.
fn refuse_link(rt: &HostRuntime, name: &str) -> Result<(), ProgramError> {
    let fault = match fs::symlink_metadata(rt, name) {
        Ok(metadata) => {
            if !metadata.is_symlink() {
                return Ok(());
            }
            FileError::Link
        }
        Err(error) if error.kind() == ErrorKind::NotFound => return Ok(()),
        Err(error) => FileError::System(error),
    };
    Err(ProgramError::of_file(rt.alloc(), name, fault))
}

/// The index that a file of this name is, with all its statistics.
fn loaded_from<R: ReadAt>(
    alloc: Global,
    name: &str,
    file: &mut IndexFile<R>,
) -> Result<Loaded, ProgramError> {
    let (root, start) = root_from(alloc, name, file)?;
    let setup = setup_of(alloc, name, &root)?;
    let index = index_from(alloc, name, file, root, start, &[])?;
    Ok(Loaded { index, setup })
}

/// The root of the index that a file of this name is, and the place of its first block.
fn root_from<R: ReadAt>(
    alloc: Global,
    name: &str,
    file: &mut IndexFile<R>,
) -> Result<(Root, u64), ProgramError> {
    match file.root(alloc) {
        Ok(read) => Ok(read),
        Err(fault) => Err(bad_index(alloc, name, fault)),
    }
}

/// The index of a root whose first block begins at this place, with the statistics of the columns that
/// are wanted.
fn index_from<R: ReadAt>(
    alloc: Global,
    name: &str,
    file: &mut IndexFile<R>,
    root: Root,
    start: u64,
    wanted: &[bool],
) -> Result<Index, ProgramError> {
    match file.index(alloc, root, start, wanted) {
        Ok(index) => Ok(index),
        Err(fault) => Err(bad_index(alloc, name, fault)),
    }
}

/// The error of an index that was not read.
fn bad_index(alloc: Global, name: &str, fault: IndexError) -> ProgramError {
    let fault = match fault {
        IndexError::System(error) => FileError::System(error),
        IndexError::Read(ReadError::Fault(fault)) => FileError::BadIndex(fault),
        IndexError::Read(ReadError::Memory) => return ProgramError::from(AllocError),
    };
    ProgramError::of_file(alloc, name, fault)
}

/// What an index keeps beside its zones, if this program wrote that.
fn setup_of(alloc: Global, name: &str, root: &Root) -> Result<Setup, ProgramError> {
    match Setup::from_text(alloc, &root.index.setup) {
        Ok(Some(setup)) => Ok(setup),
        Ok(None) => Err(ProgramError::of_file(alloc, name, FileError::OtherIndex)),
        Err(error) => Err(ProgramError::from(error)),
    }
}

/// The schema of a setup, if the byte between its fields is a delimiter.
pub fn schema_of(alloc: Global, setup: &Setup) -> Result<Schema, ProgramError> {
    match setup.schema(alloc)? {
        Some(schema) => Ok(schema),
        None => Err(ProgramError::fixed(About::File, BAD_DELIMITER)),
    }
}

/// An index, and what is sought by it.
#[derive(Drop)]
pub struct Searched {
    /// The index.
    pub index: Index,
    /// How many bytes of its file were read.
    pub read: u64,
    /// What is sought.
    pub sought: Sought,
}

/// The index of a file, if there is one, and what is sought in the file.
///
/// It has the statistics of the columns that the filter names. Where the file may have grown it has
/// all, since the last zone is compared with them.
pub fn load(
    rt: &HostRuntime,
    search: FileSearch<'_, '_>,
) -> Result<Option<Searched>, ProgramError> {
    let name = index_name(rt.alloc(), search.file)?;
    match open_index(rt, &name)? {
        Some(mut file) => {
            let searched = searched_from(rt.alloc(), search, &name, &mut file)?;
            Ok(Some(searched))
        }
        None => Ok(None),
    }
}

/// The index that a file of this name is, and what is sought.
fn searched_from<R: ReadAt>(
    alloc: Global,
    search: FileSearch<'_, '_>,
    name: &str,
    file: &mut IndexFile<R>,
) -> Result<Searched, ProgramError> {
    let (root, start) = root_from(alloc, name, file)?;
    let setup = setup_of(alloc, name, &root)?;
    let sought = Sought::from_text(alloc, setup, search.request.filter)?;
    let wanted = columns_wanted(alloc, search.request.may_have_grown, &sought)?;
    let index = index_from(alloc, name, file, root, start, &wanted)?;
    Ok(Searched {
        index,
        read: file.read,
        sought,
    })
}

/// Whether the statistics of each column are wanted: those of the columns that the filter names, and
/// all where the file may have grown.
fn columns_wanted(
    alloc: Global,
    may_have_grown: bool,
    sought: &Sought,
) -> Result<Vec<bool>, AllocError> {
    let mut wanted = vec![in alloc; may_have_grown; sought.setup.columns.len()]?;
    sought.filter.mark_columns(&mut wanted);
    Ok(wanted)
}

/// What is sought: how records are rows, and which rows match.
#[derive(Drop)]
pub struct Sought {
    /// How records are read, with the names of the columns.
    pub setup: Setup,
    /// How they are rows.
    pub schema: Schema,
    /// Which rows match.
    pub filter: Filter,
}

impl Sought {
    /// The filter that a text is over the columns of a setup.
    pub fn from_text(alloc: Global, setup: Setup, text: &str) -> Result<Sought, ProgramError> {
        let filter = filter_in(alloc, &setup, text)?;
        let schema = schema_of(alloc, &setup)?;
        Ok(Sought {
            setup,
            schema,
            filter,
        })
    }

    /// The rows of a zone.
    pub fn describer(&self) -> RowDescriber<'_> {
        RowDescriber {
            schema: &self.schema,
            bound_length: self.setup.numbers.bound_length,
        }
    }

    /// The records that match.
    pub fn matcher(&self) -> RowFilter<'_> {
        RowFilter {
            schema: &self.schema,
            filter: &self.filter,
        }
    }
}

/// The filter that a text is over the columns of a setup. A name that no column has exactly is that of the
/// one that has it in another case.
fn filter_in(alloc: Global, setup: &Setup, text: &str) -> Result<Filter, ProgramError> {
    let columns = filter_columns(alloc, setup)?;
    match filter_of_words(alloc, text, &columns, MAX_DEPTH) {
        Ok(filter) => Ok(filter),
        Err(error) => Err(filter_fault(alloc, setup, text, &columns, error)),
    }
}

/// The columns of a setup, as filters name them.
fn filter_columns(alloc: Global, setup: &Setup) -> Result<Vec<Column>, AllocError> {
    let mut columns = Vec::new(alloc);
    for named in &setup.columns {
        let name = String::from_str(alloc, &named.name)?;
        let dtype = dtype_of(alloc, named.column)?;
        columns.push(Column { name, dtype })?;
    }
    Ok(columns)
}

/// The error of a filter over the columns of a setup.
fn filter_fault(
    alloc: Global,
    setup: &Setup,
    text: &str,
    columns: &[Column],
    error: ParseError,
) -> ProgramError {
    ProgramError::made(
        about_of(error),
        bad_filter(alloc, setup, text, columns, error),
    )
}

/// What the error of a filter is about: the file whose columns do not fit, or the filter's own words.
fn about_of(error: ParseError) -> About {
    match error {
        ParseError::Expected {
            offset: _,
            expected: _,
        }
        | ParseError::BadText { offset: _ }
        | ParseError::TooDeep { offset: _ } => About::AllFiles,
        _ => About::File,
    }
}

/// What is said of a filter that is wrong.
fn bad_filter(
    alloc: Global,
    setup: &Setup,
    text: &str,
    columns: &[Column],
    error: ParseError,
) -> Result<String, AllocError> {
    let nearest = match error {
        ParseError::NoColumn { offset } => nearest_name(alloc, text, offset, columns)?,
        _ => None,
    };
    let listed = columns_text(alloc, &setup.columns)?;
    let bad = BadFilter {
        text,
        columns: &listed,
        nearest,
        error,
    };
    format!(in alloc; "{bad}")
}
