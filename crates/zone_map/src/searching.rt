//! Rows are found and counted.

ghost use Rattle.std.specs.Prelude.{◌≡◌};

use crate::answering::{Found, count_indexed, find_indexed};
use crate::commands::{SearchRequest, Wanted};
use crate::file_names::files_named;
use crate::file_searches::{FileSearch, Form};
use crate::files::{SharedFile, Stamp, at_place, buffered, open_file, stamp_of};
use crate::grown::grown_end;
use crate::lines::{Front, KnownFront, LineSink};
use crate::loading::{Searched, load};
use crate::locating::located;
use crate::program_errors::{FAILED, FileError, ProgramError};
use crate::streams::{output, search_stream};
use crate::telling::{FoundInFile, Told, tell_fault};
use crate::watching::Watched;
use std::alloc::Global;
use std::fs::File;
use std::io::{BufRead, BufReader, BufWriter, Read, Stdout};
use std::marker::Brand;
use std::process::ExitCode;
use zone_index::{Logged, NumberedSink, PlainSink, SearchError, Tally};

/// The status if no row was found.
const NONE_FOUND: u8 = 1;

/// What was found in a file.
#[derive(Clone, Copy)]
struct FileAnswer {
    /// How many rows match, as far as 64 bits count.
    rows: u64,
    /// Whether the file was searched whole because it has no index.
    lacks_index: bool,
}

/// What became of the files so far.
#[derive(Clone, Copy)]
struct Ended {
    /// Whether a row was found.
    has_found: bool,
    /// Whether a fault was told.
    has_failed: bool,
    /// How many files were searched whole because they have no index.
    without_index: u64,
}

impl Ended {
    /// What became of no file.
    const NONE: Ended = Ended {
        has_found: false,
        has_failed: false,
        without_index: 0,
    };

    /// What became of one file more.
    fn and(self, answer: FileAnswer) -> Ended {
        Ended {
            has_found: self.has_found || 0 < answer.rows,
            has_failed: self.has_failed,
            without_index: self
                .without_index
                .saturating_add(u64::from(answer.lacks_index)),
        }
    }

    /// And of one file whose fault was told.
    fn and_fault(self) -> Ended {
        Ended {
            has_failed: true,
            ..self
        }
    }

    /// The status: whether a fault was told, and else whether something was found.
    fn status(self) -> ExitCode {
        if self.has_failed {
            ExitCode::from(FAILED)
        } else if self.has_found {
            ExitCode::SUCCESS
        } else {
            ExitCode::from(NONE_FOUND)
        }
    }
}

/// Writes the rows that match, or how many there are, of each file in turn.
pub fn search(rt: &HostRuntime, request: &SearchRequest<'_>) -> Result<ExitCode, ProgramError> {
    let files = files_named(rt, &request.files)?;
    if let [file] = files.as_slice() {
        let search = FileSearch {
            request,
            file: file.as_str(),
            is_alone: true,
        };
        return Ok(Ended::NONE.and(answer_file(rt, search)?).status());
    }
    let mut ended = Ended::NONE;
    for file in &files {
        let search = FileSearch {
            request,
            file: file.as_str(),
            is_alone: false,
        };
        ended = match answer_file(rt, search) {
            Ok(answer) => ended.and(answer),
            Err(fault) => {
                tell_fault(rt, search.name(), fault)?;
                ended.and_fault()
            }
        };
    }
    advise_of(rt, ended.without_index);
    Ok(ended.status())
}

/// Writes the rows that match, or how many there are.
fn answer_file(rt: &HostRuntime, search: FileSearch<'_, '_>) -> Result<FileAnswer, ProgramError> {
    let answer = match search.path() {
        Some(path) => search_file(rt, search, path)?,
        None => FileAnswer {
            rows: search_whole(rt, search, rt.stdin())?,
            lacks_index: false,
        },
    };
    if search.request.wanted == Wanted::Count {
        write_count(rt, search, answer.rows)?;
    }
    Ok(answer)
}

/// Writes how many rows match, after the name of the file if that is wanted.
fn write_count(rt: &HostRuntime, search: FileSearch<'_, '_>, rows: u64) -> Result<(), SearchError> {
    let written = if search.has_name() {
        println!(rt; "{}:{rows}", search.name())
    } else {
        rt.println(rows)
    };
    match written {
        Ok(()) => Ok(()),
        Err(_) => Err(SearchError::Write),
    }
}

/// Searches a file by its index, or whole if it has none.
fn search_file(
    rt: &HostRuntime,
    search: FileSearch<'_, '_>,
    path: &str,
) -> Result<FileAnswer, ProgramError> {
    if search.request.is_whole || search.request.reading.is_said() {
        let file = open_file(rt, path)?;
        return Ok(FileAnswer {
            rows: search_whole(rt, search, file)?,
            lacks_index: false,
        });
    }
    match load(rt, search)? {
        Some(searched) => Ok(FileAnswer {
            rows: search_indexed(rt, search, &searched)?,
            lacks_index: false,
        }),
        None => {
            let file = open_file(rt, path)?;
            if search.is_alone {
                advise(rt, path);
            }
            Ok(FileAnswer {
                rows: search_whole(rt, search, file)?,
                lacks_index: true,
            })
        }
    }
}

/// Says that an index would help.
fn advise(rt: &HostRuntime, file: &str) {
    let _ = eprintln!(rt;
        "{file}: searched whole, since there is no index; `zone_map index` makes one"
    );
}

/// Says that indexes would help, of so many of several files.
fn advise_of(rt: &HostRuntime, count: u64) {
    if 0 < count {
        let _ = eprintln!(rt;
            "files searched whole, since they have no index: {count}; `zone_map index` makes indexes"
        );
    }
}

/// Searches a file without its index, or standard input.
fn search_whole<R: Read + Drop>(
    rt: &HostRuntime,
    search: FileSearch<'_, '_>,
    source: R,
) -> Result<u64, ProgramError> {
    let mut reader = buffered(rt.alloc(), Watched::silent(source))?;
    let found = search_stream(rt, search, &mut reader)?;
    if search.request.tells {
        let note = search.note();
        let read = reader.get_ref().count;
        let _ = eprintln!(rt; "{note}no index, bytes read {read}");
    }
    Ok(found)
}

/// Searches a file by its index.
fn search_indexed(
    rt: &HostRuntime,
    search: FileSearch<'_, '_>,
    searched: &Searched,
) -> Result<u64, ProgramError> {
    let file = open_file(rt, search.file)?;
    let before = stamp_of(rt.alloc(), search.file, &file)?;
    search_opened(rt, search, searched, before, &file)
}

/// Searches a file by its index, which was so before, and tells on demand what was done.
fn search_opened(
    rt: &HostRuntime,
    search: FileSearch<'_, '_>,
    searched: &Searched,
    before: Stamp,
    file: &File,
) -> Result<u64, ProgramError> {
    let mut reader = with_log(rt.alloc(), file);
    let rest = rest_of(rt, search, searched, before, &mut reader)?;
    let compared = reader.asked.len();
    match answer_file_indexed(rt, search, searched, rest, file, &mut reader) {
        Ok(found) => {
            if search.request.tells {
                let note = search.note();
                let told = Told::of(searched, found, rest, &reader.asked, compared);
                let _ = eprintln!(rt; "{note}{told}");
            }
            stays(rt, search, before, file)?;
            Ok(found.rows)
        }
        Err(fault) => {
            let columns = &searched.sought.setup.columns;
            Err(located(rt, Some(search.file), columns, &fault))
        }
    }
}

/// Answers a search by an index, and of what is new from an offset on, on standard output.
fn answer_file_indexed(
    rt: &HostRuntime,
    search: FileSearch<'_, '_>,
    searched: &Searched,
    rest: Option<u64>,
    file: &File,
    reader: &mut Logged<SharedFile<'_>>,
) -> Result<FoundInFile, SearchError> {
    match rest {
        Some(place) => {
            let mut new = watched_from(rt.alloc(), file, place)?;
            let (tally, rows) = answer_indexed(rt, search, searched, reader, &mut new)?;
            Ok(FoundInFile {
                tally,
                rows,
                new_bytes: new.get_ref().count,
            })
        }
        None => {
            let mut nothing: &[u8] = &[];
            let (tally, rows) = answer_indexed(rt, search, searched, reader, &mut nothing)?;
            Ok(FoundInFile {
                tally,
                rows,
                new_bytes: 0,
            })
        }
    }
}

/// A file from this offset on, through a buffer, with its bytes counted.
fn watched_from<'a>(
    alloc: Global,
    file: &'a File,
    place: u64,
) -> Result<BufReader<Watched<&'a File>>, SearchError> {
    Ok(buffered(alloc, Watched::silent(at_place(file, place)?))?)
}

/// Answers a search by an index, and of what another reader has left, on standard output. Says what became of
/// the zones, if that is counted, and how many rows match.
fn answer_indexed<B: BufRead>(
    rt: &HostRuntime,
    search: FileSearch<'_, '_>,
    searched: &Searched,
    reader: &mut Logged<SharedFile<'_>>,
    new: &mut B,
) -> Result<(Option<Tally>, u64), SearchError> {
    let alloc = rt.alloc();
    let index = &searched.index;
    let matcher = searched.sought.matcher();
    let found = match search.form() {
        Form::Count => {
            let rows = count_indexed(alloc, index, &matcher, reader, new)?;
            return Ok((None, rows));
        }
        Form::Rows => {
            let mut sink = PlainSink::new(alloc, output(rt)?);
            find_indexed(alloc, index, &matcher, reader, new, &mut sink)?
        }
        Form::NumberedRows => {
            let mut sink = NumberedSink::new(alloc, output(rt)?);
            find_indexed(alloc, index, &matcher, reader, new, &mut sink)?
        }
        Form::Lines { has_number } => {
            let front = search.front(alloc, has_number)?;
            write_lines::<Brand, B>(alloc, searched, reader, new, output(rt)?, front)?
        }
    };
    Ok((Some(found.tally), found.rows))
}

/// Writes the records that match as lines, each behind a front.
fn write_lines<K: KnownFront, B: BufRead>(
    alloc: Global,
    searched: &Searched,
    reader: &mut Logged<SharedFile<'_>>,
    new: &mut B,
    writer: BufWriter<Stdout>,
    front: Front,
) -> Result<Found, SearchError>
    requires text { front.text.items ≡ K.text }
    requires number { front.has_number ≡ K.has_number }
{
    let mut sink = LineSink::<K, BufWriter<Stdout>>::new(alloc, writer, front);
    let matcher = searched.sought.matcher();
    find_indexed(alloc, &searched.index, &matcher, reader, new, &mut sink)
}

/// The file, with what it is asked for.
fn with_log<'a>(alloc: Global, file: &'a File) -> Logged<SharedFile<'a>> {
    Logged {
        reader: SharedFile(file),
        asked: Vec::new(alloc),
    }
}

/// Where the bytes begin that are new since the file was indexed, if there are any.
///
/// `Changed` if the file changed, and it is not said or not so that it only grew.
fn rest_of(
    rt: &HostRuntime,
    search: FileSearch<'_, '_>,
    searched: &Searched,
    now: Stamp,
    reader: &mut Logged<SharedFile<'_>>,
) -> Result<Option<u64>, ProgramError> {
    let Searched {
        index,
        read: _,
        sought,
    } = searched;
    let then = Stamp {
        length: index.file_length,
        changed: index.changed,
    };
    if now == then {
        return Ok(None);
    }
    if !search.request.may_have_grown {
        return Err(ProgramError::of_file(rt.alloc(), search.file, FileError::Changed));
    }
    match grown_end(rt.alloc(), now.length, index, &sought.describer(), reader)? {
        Some(end) => Ok(if end < now.length { Some(end) } else { None }),
        None => Err(ProgramError::of_file(rt.alloc(), search.file, FileError::Changed)),
    }
}

/// Refuses what was found in a file that changed since. One that may grow may do so.
fn stays(
    rt: &HostRuntime,
    search: FileSearch<'_, '_>,
    before: Stamp,
    file: &File,
) -> Result<(), ProgramError> {
    let after = stamp_of(rt.alloc(), search.file, file)?;
    if before == after || (search.request.may_have_grown && before.length <= after.length) {
        Ok(())
    } else {
        Err(ProgramError::of_file(rt.alloc(), search.file, FileError::Changing))
    }
}
