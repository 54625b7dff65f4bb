//! Pieces of a file that are to be read.

ghost use Rattle.std.specs.Prelude.{◌≡◌, ◌<◌, ◌+◌, ◌++◌, ◌^◌, ℕ, List, IfErr, IfOk, OnOk};
ghost use Rattle.std.specs.Prelude.{◌≤◌, [], false, filter, if◌then◌else◌, map, true};
ghost use Rattle.zone_scans.specs.Planning.{is_read};
ghost use Rattle.zone_scans.specs.Ranges.{AreJoined, EndAt, IsFarZone, IsNear, bytes_of, range_bytes};

use crate::planning::{PlannedZone, Purpose};
use std::alloc::{AllocError, Global};

/// So many bytes of a file from an offset on.
#[derive(Clone, Copy, Debug, PartialEq, Eq)]
#[repr(C)]
pub struct ByteRange {
    /// The offset.
    pub place: u64,
    /// How many bytes.
    pub length: u64,
}

/// Why there are no ranges to read.
#[derive(Clone, Copy, Debug, PartialEq, Eq)]
pub enum RangeError {
    /// No memory was left.
    Memory,
    /// The zone at this place ends past all that 64 bits can tell.
    TooFar { zone: usize },
}

impl From<AllocError> for RangeError {
    ghost use Rattle.zone_scans.specs.declared.ranges.RangeError.TheVariants.{Memory};

    ghost from_gives = { λ _ e. e ≡ Memory };

    fn from(_error: AllocError) -> RangeError {
        RangeError::Memory
    }
}

impl ByteRange {
    ghost use Rattle.std.specs.Prelude.{◌≡◌, ◌≢◌, ◌+◌, ◌≤◌, ◌^◌, IfNone, IfSome, false, true};

    /// Where it ends; `None` if 64 bits do not tell that.
    pub fn end(&self) -> Option<u64>
        ensures end { IfSome result (λ end. end ≡ self.now.place + self.now.length) }
        ensures far { IfNone result (2 ^ 64 ≤ self.now.place + self.now.length) }
    {
        self.place.checked_add(self.length)
    }

    /// Whether it ends at this offset.
    fn ends_at(&self, place: u64) -> bool
        ensures yes { result ≡ true → self.now.place + self.now.length ≡ place }
        ensures no { result ≡ false → self.now.place + self.now.length ≢ place }
    {
        self.place <= place && place - self.place == self.length
    }
}

/// What is to be read of a file, zones next to each other at one go.
pub fn ranges_to_read(
    alloc: Global,
    purpose: Purpose,
    zones: &[PlannedZone],
) -> Result<Vec<ByteRange>, RangeError>
    // What they cover, in order, is what the zones do that are read.
    ensures covers { IfOk result (λ ranges. (bytes : List ℕ) → bytes_of bytes ranges.items
        ≡ bytes_of bytes (map (λ z. z.range) (filter (is_read purpose) zones.now))) }
    // None is empty, and none begins where the one before it ends.
    ensures joined { IfOk result (λ ranges. AreJoined ranges.items) }
    ensures far { IfErr result (IsFarZone purpose zones.now) }
{
    let mut ranges = Vec::new(alloc);
    for place in 0..zones.len() {
        let zone = zones[place];
        if is_far(&zone, purpose) {
            return Err(RangeError::TooFar { zone: place });
        }
        push_range(zone.is_read(purpose), zone.range, &mut ranges)?;
    }
    Ok(ranges)
}

/// Whether a zone is to be read that ends past all that 64 bits can tell.
fn is_far(zone: &PlannedZone, purpose: Purpose) -> bool
    ensures yes { result ≡ true → (is_read purpose zone.now ≡ true)
        × (2 ^ 64 ≤ zone.now.range.place + zone.now.range.length) }
    ensures no { result ≡ false → IsNear purpose zone.now }
{
    zone.is_read(purpose) && zone.range.end().is_none()
}

/// Appends a range, if that is asked for: to the last one, if it begins where that ends.
pub(crate) fn push_range(
    is_read: bool,
    range: ByteRange,
    ranges: &mut Vec<ByteRange>,
) -> Result<(), AllocError>
    requires { is_read ≡ true → range.place + range.length < 2 ^ 64 }
    ensures covers { OnOk result ((bytes : List ℕ) → bytes_of bytes ranges.new.items
        ≡ bytes_of bytes ranges.old.items ++ (if is_read then range_bytes bytes range else [])) }
    ensures joined { OnOk result (AreJoined ranges.old.items → AreJoined ranges.new.items) }
{
    if !is_read || range.length == 0 {
        return Ok(());
    }
    if ends_at(ranges, range.place) {
        let last = ranges.len() - 1;
        ranges[last].length += range.length;
        return Ok(());
    }
    ranges.push(range)?;
    Ok(())
}

/// Whether the last of these ranges ends at this offset.
fn ends_at(ranges: &[ByteRange], place: u64) -> bool
    ensures yes { result ≡ true → EndAt ranges.now place }
    ensures no { result ≡ false → ¬ (EndAt ranges.now place) }
{
    match ranges {
        [.., last] => last.ends_at(place),
        [] => false,
    }
}
