//! The words of the command line.

use clap::error::ErrorKind;
use clap::{Arg, ArgAction, ArgMatches, Command, Error, value_parser};
use std::alloc::{AllocError, Global};

/// What the help of the program ends with.
const ABOUT_STATUS: &str =
    "The status is 0 if a row was found, 1 if none was, and 2 after an error. \
    zone_map COMMAND --help lists the options of a command.

Examples:
  zone_map index trips.csv --header
  zone_map find trips.csv \"city = 'Oslo' and fare between 100 and 200\" --tell
  zone_map count logs/*.csv \"status >= 500\"";

/// How an index is asked for.
const INDEX_USAGE: &str = "zone_map index [OPTIONS] <FILE>...";

/// How rows are asked for.
const FIND_USAGE: &str = "zone_map find [OPTIONS] <FILE>... <FILTER>
       zone_map find [OPTIONS] --where <FILTER> <FILE>...";

/// How counts are asked for.
const COUNT_USAGE: &str = "zone_map count [OPTIONS] <FILE>... <FILTER>
       zone_map count [OPTIONS] --where <FILTER> <FILE>...";

/// What the help of a command ends with that makes an index.
const ABOUT_COLUMNS: &str =
    "Kinds are i8, i16, i32, i64, u8, u16, u32 and u64 in decimal, f64, f32, decimal(10,2), date, time(us), \
    timestamp(us), timestamp(us,UTC), utf8, bytes as they are, and binary in hexadecimal digits; \
    units are s, ms, us and ns. \
    A name with other characters than letters, digits, _ and $ is written in double quotes. \
    Without --columns the kinds are guessed from the first 1000 records, and reported. \
    So are those of columns that --columns leaves out and --header names.";

/// What the help of a command ends with that searches.
const ABOUT_FILTERS: &str =
    "Filters compare a column with a literal by = <> != < <= > >=, between .. and .., in (..), like 'abc%', is null, \
    and join tests by and, or, not and parentheses. \
    Literals are 12, 10.5, 'text', '2026-03-01', x'00ff' and null. \
    Columns are names, in double quotes where they are no words, or $1, $2 ..; \
    of a file without named columns, line is the whole line.

Without FILE.zones, and with --whole, --columns, --delimiter, --header, --null or --lenient, \
    a file is searched whole.

If there are several files, each has its own index and its own columns. What is wrong with one is reported, \
    the others are answered, and the status is 2.";

/// What the words ask for.
#[derive(Drop)]
pub enum Asked<'a> {
    /// An index of each file.
    Index(IndexRequest<'a>),
    /// The rows that match, or how many there are.
    Search(SearchRequest<'a>),
    /// The zones of this file.
    Show(&'a str),
}

/// What the words say of how records are to be read.
#[derive(Drop)]
pub struct Reading<'a> {
    /// The columns: a name and a kind each. They are guessed if this is not said.
    pub columns: Option<&'a str>,
    /// The text between two fields; a comma if this is not said.
    pub delimiter: Option<&'a str>,
    /// Whether the first record has the names of the columns.
    pub has_header: bool,
    /// Whether a field that its column does not take is a null, where the column takes nulls.
    pub is_lenient: bool,
    /// The words that are nulls, in columns that take nulls.
    pub nulls: Vec<&'a str>,
}

impl Reading<'_> {
    /// Whether anything is said of it.
    pub fn is_said(&self) -> bool {
        let says_words = self.columns.is_some()
            || self.delimiter.is_some()
            || !self.nulls.is_empty();
        says_words || self.has_header || self.is_lenient
    }
}

/// How files are to be indexed.
#[derive(Drop)]
pub struct IndexRequest<'a> {
    /// The files, or patterns of files.
    pub files: Vec<&'a str>,
    /// How their records are to be read.
    pub reading: Reading<'a>,
    /// How many records a zone has.
    pub rows: u64,
    /// How many bytes a bound has at most.
    pub bound_length: usize,
    /// Whether the indexes that stand there are to be extended by what is new in the files.
    pub appends: bool,
}

/// What is wanted of the rows that match.
#[derive(Clone, Copy, PartialEq, Eq)]
pub enum Wanted {
    /// The rows as they are in the file.
    Rows,
    /// Each row after the number of its record.
    NumberedRows,
    /// How many there are.
    Count,
}

/// Whether the name of its file stands before each row and each count.
#[derive(Clone, Copy, PartialEq, Eq)]
pub enum Naming {
    /// If there are several files.
    OfSeveral,
    /// Also if there is one.
    Always,
    /// Never.
    Never,
}

/// What is to be sought in files.
#[derive(Drop)]
pub struct SearchRequest<'a> {
    /// The files, or patterns of files; `-` is standard input.
    pub files: Vec<&'a str>,
    /// Which rows match.
    pub filter: &'a str,
    /// How records are to be read if a file is searched without its index.
    pub reading: Reading<'a>,
    /// Whether the files are to be searched without their indexes.
    pub is_whole: bool,
    /// Whether the files may only have grown since they were indexed.
    pub may_have_grown: bool,
    /// What is wanted of the rows.
    pub wanted: Wanted,
    /// Whether the names of files are wanted.
    pub naming: Naming,
    /// Whether to tell what became of the zones.
    pub tells: bool,
}

/// What is said where a file or the filter is missing.
const MISSING_WORD: &str = "a search wants FILE .. FILTER, or --where FILTER FILE ..";

/// What the words ask for, or what is wrong with them. The first word is the name of the program.
pub fn asked_in<'a>(alloc: Global, words: &'a [String]) -> Result<Asked<'a>, Error> {
    let mut command = command(alloc)?;
    asked_of(alloc, &mut command, words)
}

/// What the words ask for by a command line.
fn asked_of<'a>(
    alloc: Global,
    command: &mut Command<'a>,
    words: &'a [String],
) -> Result<Asked<'a>, Error> {
    let matches = command.try_get_matches_from_mut(words)?;
    match request_in(alloc, &matches)? {
        Some(asked) => Ok(asked),
        None => Err(command.error(ErrorKind::MissingRequiredArgument, MISSING_WORD)?),
    }
}

/// What is asked for by the words that were matched.
fn request_in<'a>(
    alloc: Global,
    matches: &ArgMatches<'a>,
) -> Result<Option<Asked<'a>>, AllocError> {
    match matches.subcommand() {
        Some(("index", matches)) => Ok(index_in(alloc, matches)?.map(Asked::Index)),
        Some(("find", matches)) => {
            Ok(search_in(alloc, matches, rows_wanted(matches))?.map(Asked::Search))
        }
        Some(("count", matches)) => {
            Ok(search_in(alloc, matches, Wanted::Count)?.map(Asked::Search))
        }
        Some(("show", matches)) => Ok(matches.get_str("file").map(Asked::Show)),
        _ => Ok(None),
    }
}

/// How files are to be indexed.
fn index_in<'a>(
    alloc: Global,
    matches: &ArgMatches<'a>,
) -> Result<Option<IndexRequest<'a>>, AllocError> {
    let Some(rows) = matches.get_one::<u64>("rows") else {
        return Ok(None);
    };
    let Some(bound_length) = matches.get_one::<usize>("bytes") else {
        return Ok(None);
    };
    Ok(Some(IndexRequest {
        files: words_of(alloc, matches, "file")?,
        reading: reading_in(alloc, matches)?,
        rows,
        bound_length,
        appends: matches.get_flag("append"),
    }))
}

/// What is to be sought.
fn search_in<'a>(
    alloc: Global,
    matches: &ArgMatches<'a>,
    wanted: Wanted,
) -> Result<Option<SearchRequest<'a>>, AllocError> {
    let mut files = words_of(alloc, matches, "file")?;
    let Some(filter) = filter_in(matches, &mut files) else {
        return Ok(None);
    };
    if files.is_empty() {
        return Ok(None);
    }
    Ok(Some(SearchRequest {
        files,
        filter,
        reading: reading_in(alloc, matches)?,
        is_whole: matches.get_flag("whole"),
        may_have_grown: matches.get_flag("grown"),
        wanted,
        naming: naming_in(matches),
        tells: matches.get_flag("tell"),
    }))
}

/// The filter that `--where` gives. Without it the last of the words is the filter, and no file.
fn filter_in<'a>(matches: &ArgMatches<'a>, words: &mut Vec<&'a str>) -> Option<&'a str> {
    match matches.get_str("where") {
        Some(filter) => Some(filter),
        None => words.pop(),
    }
}

/// Whether the names of files are wanted.
fn naming_in(matches: &ArgMatches<'_>) -> Naming {
    if matches.get_flag("with-filename") {
        Naming::Always
    } else if matches.get_flag("no-filename") {
        Naming::Never
    } else {
        Naming::OfSeveral
    }
}

/// Whether rows are wanted with numbers.
fn rows_wanted(matches: &ArgMatches<'_>) -> Wanted {
    if matches.get_flag("numbers") {
        Wanted::NumberedRows
    } else {
        Wanted::Rows
    }
}

/// How records are to be read.
fn reading_in<'a>(alloc: Global, matches: &ArgMatches<'a>) -> Result<Reading<'a>, AllocError> {
    Ok(Reading {
        columns: matches.get_str("columns"),
        delimiter: matches.get_str("delimiter"),
        has_header: matches.get_flag("header"),
        is_lenient: matches.get_flag("lenient"),
        nulls: words_of(alloc, matches, "null")?,
    })
}

/// The words that were given for this name.
fn words_of<'a>(
    alloc: Global,
    matches: &ArgMatches<'a>,
    name: &str,
) -> Result<Vec<&'a str>, AllocError> {
    Vec::from_slice(alloc, matches.get_strs(name).unwrap_or(&[]))
}

/// The command line.
fn command<'a>(alloc: Global) -> Result<Command<'a>, AllocError> {
    Command::new(alloc, "zone_map")
        .about(
            "Searches files of records by an index of their zones, and skips those that cannot match",
        )
        .after_help(ABOUT_STATUS)
        .subcommand_required(true)
        .subcommand(index_command(alloc)?)?
        .subcommand(find_command(alloc)?)?
        .subcommand(count_command(alloc)?)?
        .subcommand(show_command(alloc)?)
}

/// The command that makes an index.
fn index_command<'a>(alloc: Global) -> Result<Command<'a>, AllocError> {
    let command = Command::new(alloc, "index")
        .about("Write FILE.zones, the index of a file, for each file")
        .override_usage(INDEX_USAGE)
        .after_help(ABOUT_COLUMNS)
        .arg(files_arg(alloc, "The files of records"))?;
    add_reading(alloc, command)?
        .arg(rows_arg(alloc))?
        .arg(bytes_arg(alloc))?
        .arg(append_arg(alloc)?)
}

/// The command that writes rows.
fn find_command<'a>(alloc: Global) -> Result<Command<'a>, AllocError> {
    let about =
        "Write the rows that match, as they are in the file; the status is 1 if there is none";
    let told =
        "Report on standard error how many zones were skipped, copied and searched, and how many bytes were read";
    search_command(alloc, "find", FIND_USAGE, about, told)?.arg(flag(alloc, "numbers").help(
        "Write the number of its record and a colon before each row",
    ))
}

/// The command that counts rows.
fn count_command<'a>(alloc: Global) -> Result<Command<'a>, AllocError> {
    let about = "Write how many rows match in each file; the status is 1 if there is none";
    let told =
        "Report on standard error how many zones were searched, and how many bytes were read";
    search_command(alloc, "count", COUNT_USAGE, about, told)
}

/// The command that shows zones.
fn show_command<'a>(alloc: Global) -> Result<Command<'a>, AllocError> {
    Command::new(alloc, "show")
        .about("Write the zones of a file, and the bounds of its columns")
        .arg(file_arg(alloc, "The file of records"))
}

/// A command that searches, and on demand reports what it did, which a text says.
fn search_command<'a>(
    alloc: Global,
    name: &'a str,
    usage: &'a str,
    about: &'a str,
    told: &'a str,
) -> Result<Command<'a>, AllocError> {
    let command = Command::new(alloc, name)
        .about(about)
        .override_usage(usage)
        .after_help(ABOUT_FILTERS)
        .arg(files_arg(
            alloc,
            "The files of records, and - for standard input; the last word is the filter",
        ))?
        .arg(where_arg(alloc))?
        .arg(flag(alloc, "tell").help(told))?
        .arg(flag(alloc, "grown").help(
            "Search a file that was only appended to since it was indexed: what is new, too",
        ))?
        .arg(flag(alloc, "whole").help(
            "Search the whole file without its index, as the next five options do",
        ))?;
    add_naming(alloc, add_reading(alloc, command)?)
}

/// Adds the words that say whether the names of files are written. The last one counts.
fn add_naming<'a>(alloc: Global, command: Command<'a>) -> Result<Command<'a>, AllocError> {
    let always = flag(alloc, "with-filename")
        .short('H')
        .help(
            "Write the name of its file and a colon before each row and each count, as of several files",
        )
        .overrides_with("no-filename")?;
    let never = flag(alloc, "no-filename")
        .help("Write no names of files")
        .overrides_with("with-filename")?;
    command.arg(always)?.arg(never)
}

/// Adds the words that say how records are to be read.
fn add_reading<'a>(alloc: Global, command: Command<'a>) -> Result<Command<'a>, AllocError> {
    command
        .arg(columns_arg(alloc))?
        .arg(delimiter_arg(alloc))?
        .arg(flag(alloc, "header").help(
            "The first record has the names of the columns, and is no row",
        ))?
        .arg(null_arg(alloc))?
        .arg(flag(alloc, "lenient").help(
            "Take a field that its column does not take, or that is missing, as a null, where the column takes nulls",
        ))
}

/// A word that is said or not.
fn flag<'a>(alloc: Global, name: &'a str) -> Arg<'a> {
    Arg::new(alloc, name).long(name).action(ArgAction::SetTrue)
}

/// The files that a command is about. Options may stand between them.
fn files_arg<'a>(alloc: Global, help: &'a str) -> Arg<'a> {
    Arg::new(alloc, "file")
        .value_name("FILE")
        .num_args(1..)
        .action(ArgAction::Append)
        .required(true)
        .help(help)
}

/// The file that a command is about.
fn file_arg<'a>(alloc: Global, help: &'a str) -> Arg<'a> {
    Arg::new(alloc, "file")
        .value_name("FILE")
        .required(true)
        .help(help)
}

/// Which rows match, where all words are files.
fn where_arg<'a>(alloc: Global) -> Arg<'a> {
    Arg::new(alloc, "where")
        .short('e')
        .long("where")
        .value_name("FILTER")
        .help(
            "Which rows match, as SQL's WHERE: \"city = 'Oslo' and fare between 100 and 200\"; then each word is a file",
        )
}

/// The columns of records.
fn columns_arg<'a>(alloc: Global) -> Arg<'a> {
    Arg::new(alloc, "columns")
        .long("columns")
        .value_name("COLUMNS")
        .help("The columns: 'id i64, city utf8?, key binary'; ? takes nulls. Guessed if not given")
}

/// The byte between fields.
fn delimiter_arg<'a>(alloc: Global) -> Arg<'a> {
    Arg::new(alloc, "delimiter")
        .long("delimiter")
        .value_name("BYTE")
        .help(
            "The byte between two fields, tab, or none for lines of one field; a comma if not given",
        )
}

/// A word that is a null.
fn null_arg<'a>(alloc: Global) -> Arg<'a> {
    Arg::new(alloc, "null")
        .long("null")
        .value_name("WORD")
        .action(ArgAction::Append)
        .help(
            "A word that is read as a null, as an empty field is, unless it is in quotes; may be given again",
        )
}

/// How many records a zone has.
fn rows_arg<'a>(alloc: Global) -> Arg<'a> {
    Arg::new(alloc, "rows")
        .long("rows")
        .value_name("N")
        .value_parser(value_parser!(u64).range(1..))
        .default_value("1000")
        .help("The number of records in each zone")
}

/// How long bounds are.
fn bytes_arg<'a>(alloc: Global) -> Arg<'a> {
    Arg::new(alloc, "bytes")
        .long("bytes")
        .value_name("N")
        .value_parser(value_parser!(usize))
        .default_value("24")
        .help("The length in bytes to which bounds of strings and bytes are cut")
}

/// Whether an index is extended.
fn append_arg<'a>(alloc: Global) -> Result<Arg<'a>, AllocError> {
    flag(alloc, "append")
        .help(
            "Extend the index of a file that was only appended to; --rows and --bytes stay what they were",
        )
        .conflicts_with("columns")?
        .conflicts_with("delimiter")?
        .conflicts_with("header")?
        .conflicts_with("null")?
        .conflicts_with("lenient")
}
