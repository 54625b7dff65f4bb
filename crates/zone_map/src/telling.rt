//! What a search by an index did is told, and what is wrong with one of several files.

ghost use Rattle.std.specs.Prelude.{◌≡◌, ◌+◌, Some, length, option_map};
ghost use Rattle.std.specs.Fmt.{WritesOnOk};
ghost use Rattle.zone_index.specs.Sinks.{told};
ghost use Rattle.zone_map.specs.Telling.{asked_length, new_text, told_text, zones_text};

use crate::loading::Searched;
use crate::program_errors::{About, NamedFault, ProgramError};
use std::fmt::{self, Display, Formatter, Write};
use zone_index::{Asked, Tally, Zone};

/// Tells what is wrong with one of several files, so that the others can be answered. An error that is about
/// all of them is passed on.
pub fn tell_fault(rt: &HostRuntime, file: &str, fault: ProgramError) -> Result<(), ProgramError> {
    if fault.about == About::AllFiles {
        return Err(fault);
    }
    let told = NamedFault {
        file,
        fault: &fault,
    };
    let _ = eprintln!(rt; "{told}");
    Ok(())
}

/// What was found in a file by its index.
#[derive(Clone, Copy)]
pub struct FoundInFile {
    /// What became of the zones, if that was counted.
    pub tally: Option<Tally>,
    /// How many rows match, as far as 64 bits count.
    pub rows: u64,
    /// How many bytes were read of what is new, as far as 64 bits count.
    pub new_bytes: u64,
}

/// What a search by an index did.
#[derive(Clone, Copy)]
pub struct Told {
    /// How many zones the index has.
    zones: usize,
    /// What became of them, if that was counted.
    tally: Option<Tally>,
    /// How many of them were read.
    zones_read: usize,
    /// How many bytes were read of what is new since the file was indexed, if anything is.
    new_bytes: Option<u64>,
    /// How many bytes of the file were read.
    bytes: u64,
    /// How many bytes of the index were read.
    index_bytes: u64,
}

impl Told {
    /// What was done to find this. So many of the questions to the file stood before the search, to
    /// compare the last zone. New bytes stand from `rest` on, if there are any.
    pub fn of(
        searched: &Searched,
        found: FoundInFile,
        rest: Option<u64>,
        asked: &[Asked],
        compared: usize,
    ) -> Told
        ensures zones { result.zones ≡ length searched.now.index.zones.items }
        ensures tally { result.tally ≡ found.tally }
        ensures new_bytes { result.new_bytes ≡ option_map (λ _. found.new_bytes) rest }
        ensures bytes { result.bytes ≡ told (asked_length asked.now + found.new_bytes) }
        ensures index_bytes { result.index_bytes ≡ searched.now.read }
    {
        let zones = &searched.index.zones;
        Told {
            zones: zones.len(),
            tally: found.tally,
            zones_read: zones_asked(zones, asked.get(compared..).unwrap_or(&[])),
            new_bytes: rest.map(|_| found.new_bytes),
            bytes: bytes_asked(asked).saturating_add(found.new_bytes),
            index_bytes: searched.read,
        }
    }
}

/// What became of the zones, and how many bytes were read.
impl Display for Told {
    ghost output = { λ t. Some (told_text t) };

    fn fmt<W: Write>(&self, f: &mut Formatter<W>) -> fmt::Result {
        write!(f, "zones {}", self.zones)?;
        write_zones(self.tally, self.zones_read, f)?;
        write_new(self.new_bytes, f)?;
        write!(
            f,
            ", bytes read {}, index bytes {}",
            self.bytes, self.index_bytes
        )
    }
}

/// Writes what became of the zones, or how many of them were read where that was not counted.
fn write_zones<W: Write>(tally: Option<Tally>, read: usize, f: &mut Formatter<W>) -> fmt::Result
    ensures { WritesOnOk W.write_str_gives f.old result (zones_text tally read) f.new }
{
    match tally {
        Some(
            Tally {
                skipped,
                copied,
                searched,
                found: _,
            },
        ) => write!(
            f,
            ", skipped {skipped}, copied {copied}, searched {searched}"
        ),
        None => write!(f, ", searched {read}"),
    }
}

/// Writes how many bytes are new, if some are.
fn write_new<W: Write>(new_bytes: Option<u64>, f: &mut Formatter<W>) -> fmt::Result
    ensures { WritesOnOk W.write_str_gives f.old result (new_text new_bytes) f.new }
{
    match new_bytes {
        Some(bytes) => write!(f, ", new bytes {bytes}"),
        None => Ok(()),
    }
}

/// How many of these zones, which stand one behind another, were asked for: the first byte of each.
fn zones_asked(zones: &[Zone], asked: &[Asked]) -> usize {
    asked
        .iter()
        .filter(|one| begins_zone(zones, one.place))
        .count()
}

/// Whether a zone begins at this place.
fn begins_zone(zones: &[Zone], place: u64) -> bool {
    zones
        .binary_search_by_key(&place, |zone| zone.first)
        .is_ok()
}

/// How many bytes were asked for, as far as 64 bits count.
fn bytes_asked(asked: &[Asked]) -> u64
    ensures { result ≡ told (asked_length asked.now) }
{
    let mut read = 0u64;
    for one in asked {
        read = read.saturating_add(one.length);
    }
    read
}
