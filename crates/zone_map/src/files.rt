//! Files and their indexes.

use crate::program_errors::{FileError, ProgramError};
use std::alloc::{AllocError, Global};
use std::fs::{self, File, Metadata};
use std::io::{self, BufReader, ErrorKind, Read, Seek, SeekFrom, Write};
use std::os::unix::fs::FileExt;
use std::time::UNIX_EPOCH;
use zone_index::{Index, ReadAt, SearchError, WriteError, write_index};

/// How many names are tried for a new file.
const NAMES_TRIED: u32 = 1000;

/// How long a file is, and when it was changed last.
#[derive(Clone, Copy, PartialEq, Eq)]
pub struct Stamp {
    /// Its bytes.
    pub length: u64,
    /// Nanoseconds since 1970, as far as 64 bits count.
    pub changed: u64,
}

/// An open file that others read, too: bytes are read from any offset, and none is kept.
#[derive(Clone, Copy)]
pub struct SharedFile<'a>(pub &'a File);

impl ReadAt for SharedFile<'_> {
    fn read_at(&mut self, at: u64, into: &mut [u8]) -> io::Result<usize> {
        FileExt::read_at(self.0, into, at)
    }
}

/// The name of the index of a file.
pub fn index_name(alloc: Global, file: &str) -> Result<String, AllocError> {
    format!(in alloc; "{file}.zones")
}

/// Opens a file.
pub fn open_file(rt: &HostRuntime, name: &str) -> Result<File, ProgramError> {
    match File::open(rt, name) {
        Ok(file) => Ok(file),
        Err(error) => Err(ProgramError::of_file(rt.alloc(), name, FileError::System(error))),
    }
}

/// The reader, through a buffer.
pub fn buffered<R: Read + Drop>(alloc: Global, reader: R) -> Result<BufReader<R>, AllocError> {
    match BufReader::new(alloc, reader) {
        Ok(reader) => Ok(reader),
        Err(_) => Err(AllocError),
    }
}

/// A file from this offset on, through a buffer.
pub fn from_place<R: Read + Seek + Drop>(
    alloc: Global,
    file: R,
    place: u64,
) -> Result<BufReader<R>, SearchError> {
    let file = at_place(file, place)?;
    Ok(buffered(alloc, file)?)
}

/// A file from this offset on.
pub fn at_place<R: Seek + Drop>(mut file: R, place: u64) -> Result<R, SearchError> {
    match file.seek(SeekFrom::Start(place)) {
        Ok(_) => Ok(file),
        Err(_) => Err(SearchError::Read),
    }
}

/// When a file was changed last.
fn changed(metadata: &Metadata) -> u64 {
    let Ok(time) = metadata.modified() else {
        return 0;
    };
    match time.duration_since(UNIX_EPOCH) {
        Ok(since) => u64::try_from(since.as_nanos()).unwrap_or(u64::MAX),
        Err(_) => 0,
    }
}

/// How long an open file is, and when it was changed last.
pub fn stamp_of(alloc: Global, name: &str, file: &File) -> Result<Stamp, ProgramError> {
    match file.metadata() {
        Ok(metadata) => Ok(Stamp {
            length: metadata.len(),
            changed: changed(&metadata),
        }),
        Err(error) => Err(ProgramError::of_file(alloc, name, FileError::System(error))),
    }
}

/// Writes an index of so many columns beside its file.
pub fn save(
    rt: &HostRuntime,
    file: &str,
    columns: usize,
    index: &Index,
) -> Result<(), ProgramError> {
    let name = index_name(rt.alloc(), file)?;
    match write_index(rt.alloc(), columns, index) {
        Ok(bytes) => save_bytes(rt, &name, &bytes),
        Err(WriteError::Memory) => Err(ProgramError::from(AllocError)),
        Err(WriteError::Pieces) => Err(ProgramError::of_file(
            rt.alloc(),
            &name,
            FileError::OtherIndex,
        )),
    }
}

/// Writes a file of this name, whole or not at all.
fn save_bytes(rt: &HostRuntime, name: &str, bytes: &[u8]) -> Result<(), ProgramError> {
    match replace(rt, name, bytes) {
        Ok(()) => Ok(()),
        Err(error) => Err(ProgramError::of_file(rt.alloc(), name, FileError::System(error))),
    }
}

/// Writes a new file, which then takes this name. Where that fails, the new file is removed.
fn replace(rt: &HostRuntime, name: &str, bytes: &[u8]) -> io::Result<()> {
    let (temporary, output) = new_file(rt, name)?;
    let done = write_as(rt, output, &temporary, name, bytes);
    if done.is_err() {
        let _ = fs::remove_file(rt, temporary.as_str());
    }
    done
}

/// A file that no one else has, beside one of this name, and its own name. Nothing that stands there
/// is opened, a link neither.
fn new_file(rt: &HostRuntime, name: &str) -> io::Result<(String, File)> {
    for number in 1..=NAMES_TRIED {
        let temporary = format!(in rt.alloc(); "{name}.new{number}")?;
        match File::create_new(rt, temporary.as_str()) {
            Ok(file) => return Ok((temporary, file)),
            Err(error) if error.kind() == ErrorKind::AlreadyExists => {}
            Err(error) => return Err(error),
        }
    }
    Err(io::Error::from(ErrorKind::AlreadyExists))
}

/// Writes and syncs a new file, and then gives it its name.
fn write_as(
    rt: &HostRuntime,
    mut output: File,
    temporary: &str,
    name: &str,
    bytes: &[u8],
) -> io::Result<()> {
    output.write_all(bytes)?;
    output.sync_all()?;
    fs::rename(rt, temporary, name)
}
