//! Zones of records, and where records stand.

ghost use Rattle.std.specs.Prelude.{◌≡◌, ◌==◌, ◌+◌, sum_by};
ghost use Rattle.zone_index.specs.Sinks.{told};

/// A zone: records that stand one after another, and what is known of them.
#[derive(Debug, Drop)]
pub struct Zone {
    /// The offset of its first byte.
    pub first: u64,
    /// How many bytes it has.
    pub length: u64,
    /// How many records.
    pub records: u64,
    /// How many of them have a row.
    pub rows: u64,
    /// Statistics of the rows, in bytes.
    pub statistics: Vec<u8>,
}

impl Zone {
    /// Whether each of its records has a row.
    pub fn has_only_rows(&self) -> bool
        ensures { result ≡ (self.now.records == self.now.rows) }
    {
        self.records == self.rows
    }
}

/// What a search does with a zone.
#[derive(Clone, Copy, Debug, PartialEq, Eq)]
pub enum Way {
    /// It is not read, since no row matches.
    Skip,
    /// It is written whole, since each of its records has a row that matches.
    Copy,
    /// It is read, and each record judged.
    Search,
}

/// Where a record stands: the offset of its first byte, and its number.
#[derive(Clone, Copy, Debug, PartialEq, Eq)]
pub struct Position {
    /// The offset.
    pub place: u64,
    /// The number.
    pub number: u64,
}

/// The number of the record after these zones, whose first record has the number `first`, as far as 64
/// bits tell.
pub fn number_after(first: u64, zones: &[Zone]) -> u64
    ensures { result ≡ told (first + sum_by (λ z. z.records) zones.now) }
{
    let mut number = first;
    for zone in zones {
        number = number.saturating_add(zone.records);
    }
    number
}
