//! The fields of a record are walked, each beside its column.

ghost use Rattle.std.specs.Prelude.{◌≡◌, ◌+◌, ◌<◌, ◌≤◌, ℕ, List, [], IfErr, IfNone, IfOk, IfSome};
ghost use Rattle.std.specs.Prelude.{MatchBool, MatchOption, drop};
ghost use Rattle.std.specs.Prelude.{length};
ghost use Rattle.std.specs.Prelude.{if◌then◌else◌};
ghost use Rattle.csv_records.specs.Rows.{Field};
ghost use Rattle.record_rows.specs.Readings.{Reading};
ghost use Rattle.record_rows.specs.Rows.{RefusesFields, fitted};
ghost use Rattle.record_rows.specs.Walks.{AreTaken, EndsFields, EndsWalk, HasWalked, IsMissing, ReadsNext, StartsField};
ghost use Rattle.record_rows.specs.declared.schema.ColumnType.{ColumnType};

use crate::errors::RowReadError;
use crate::schema::{ColumnType, Schema};
use crate::texts::is_only_row;
use csv_records::{CutField, Delimiter, Follows, cut_field};
use vortex_dtype::Nullability;

/// A field of a record, and its column.
#[derive(Clone, Copy, Debug)]
pub(crate) struct ColumnField<'a> {
    /// How many fields stand before it.
    pub place: usize,
    /// The column at its place.
    pub column: ColumnType,
    /// Its bytes.
    pub word: &'a [u8],
    /// Whether it began with a quote.
    pub is_quoted: bool,
}

/// A walk over the fields of a record, one for each column.
#[derive(Clone, Copy, Debug)]
pub(crate) struct FieldWalk<'a> {
    /// The byte between two fields.
    pub delimiter: Delimiter,
    /// The columns.
    pub columns: &'a [ColumnType],
    /// How many fields were read.
    pub place: usize,
    /// What follows them.
    pub follows: Follows<'a>,
    /// Whether a null stands in place of a field that is missing, where its column takes nulls, and fields
    /// behind those of the last column are passed over.
    pub is_lenient: bool,
    /// Whether some were passed over.
    pub is_longer: bool,
}

impl<'a> FieldWalk<'a> {
    /// The walk over a text that begins where a field does.
    #[inline(always)]
    pub(crate) fn of(schema: &'a Schema, text: &'a [u8]) -> FieldWalk<'a>
        ensures { HasWalked schema.now.delimiter.byte schema.now.reading schema.now.columns.items text.now result [] }
    {
        FieldWalk {
            delimiter: schema.delimiter,
            columns: &schema.columns,
            place: 0,
            follows: Follows::Another(text),
            is_lenient: schema.reading.is_lenient(),
            is_longer: false,
        }
    }

    /// The next field; `None` if each column has its field, and no other field follows that is not passed
    /// over. The buffer takes the bytes of a field in quotes.
    #[inline(always)]
    pub(crate) fn next_field<'b>(
        &mut self,
        buffer: &'b mut Vec<u8>,
    ) -> Result<Option<ColumnField<'b>>, RowReadError>
    where
        'a: 'b,
        ensures next { IfOk result (λ next. (delimiter : ℕ) (reading : Reading) (columns : List ColumnType)
            (bytes : List ℕ) (fields : List Field) → HasWalked delimiter reading columns bytes self.old fields
            → ReadsNext delimiter reading columns bytes self.new fields next) }
        ensures moves { IfOk result (λ next. IfSome next (λ _. (self.new.place ≡ self.old.place + 1)
            × (self.old.place < length self.old.columns.now))) }
        ensures columns { self.new.columns ≡ self.old.columns }
        // If the fields before were taken, the fault is the first one.
        ensures refused { IfErr result (λ fault. (delimiter : ℕ) (reading : Reading) (columns : List ColumnType)
            (bytes : List ℕ) (fields : List Field) → HasWalked delimiter reading columns bytes self.old fields
            → AreTaken reading columns fields → RefusesFields delimiter reading columns bytes fault) }
    {
        let Some(rest) = self.next_start(buffer)? else {
            return Ok(None);
        };
        let cut = cut_field(self.delimiter, rest, buffer)?;
        let field = ColumnField {
            place: self.place,
            column: self.columns[self.place],
            word: word_of(&cut, buffer),
            is_quoted: cut.is_quoted,
        };
        self.place += 1;
        self.follows = cut.follows;
        Ok(Some(field))
    }

    /// Where the next field starts; `None` behind the last one. A field that is missing starts where no
    /// byte is left.
    #[inline(always)]
    fn next_start(&mut self, buffer: &mut Vec<u8>) -> Result<Option<&'a [u8]>, RowReadError>
        ensures start { IfOk result (λ start. IfSome start (λ rest. StartsField self.old rest.now)) }
        ensures stays { IfOk result (λ start. IfSome start (λ _. self.new ≡ self.old)) }
        ensures end { IfOk result (λ start. IfNone start (EndsFields self.old self.new)) }
        ensures columns { self.new.columns ≡ self.old.columns }
        ensures refused { IfErr result (EndsWalk self.old) }
    {
        if self.place < self.columns.len() {
            self.start_of_column()
        } else {
            self.end_of_fields(buffer)
        }
    }

    /// Where the field of the next column starts.
    #[inline(always)]
    fn start_of_column(&self) -> Result<Option<&'a [u8]>, RowReadError>
        requires { self.now.place < length self.now.columns.now }
        ensures start { IfOk result (λ start. MatchOption start ⊥ (λ rest. StartsField self.now rest.now)) }
        ensures refused { IfErr result (EndsWalk self.now) }
    {
        match self.follows {
            Follows::Another(rest) => Ok(Some(rest)),
            Follows::Nothing => {
                if self.may_miss() {
                    Ok(Some(&[]))
                } else {
                    Err(RowReadError::FieldCount)
                }
            }
            Follows::Row => Err(RowReadError::LoneReturn),
        }
    }

    /// Whether a null may stand in place of the field of the next column, which is missing.
    fn may_miss(&self) -> bool
        requires { self.now.place < length self.now.columns.now }
        ensures { MatchBool result (IsMissing self.now [])
            (fitted self.now.is_lenient (drop self.now.place self.now.columns.now) [] ≡ []) }
    {
        match self.columns[self.place].nullability {
            Nullability::Nullable => self.is_lenient,
            Nullability::NonNullable => false,
        }
    }

    /// Passes over the fields for which there is no column, if it may. No other row follows them.
    #[inline(always)]
    fn end_of_fields(&mut self, buffer: &mut Vec<u8>) -> Result<Option<&'a [u8]>, RowReadError>
        requires { length self.old.columns.now ≤ self.old.place }
        ensures end { IfOk result (λ start. MatchOption start (EndsFields self.old self.new) (λ _. ⊥)) }
        ensures columns { self.new.columns ≡ self.old.columns }
        ensures refused { IfErr result (EndsWalk self.old) }
    {
        match self.follows {
            Follows::Another(rest) if self.is_lenient => {
                if !is_only_row(self.delimiter, rest, buffer)? {
                    return Err(RowReadError::LoneReturn);
                }
                self.is_longer = true;
                Ok(None)
            }
            Follows::Another(_) => Err(RowReadError::FieldCount),
            Follows::Nothing => Ok(None),
            Follows::Row => Err(RowReadError::LoneReturn),
        }
    }
}

/// The bytes of a field.
#[inline(always)]
fn word_of<'a>(cut: &CutField<'a>, buffer: &'a [u8]) -> &'a [u8]
    ensures { result.now ≡ (if cut.now.is_quoted then buffer.now else cut.now.bare.now) }
{
    if cut.is_quoted { buffer } else { cut.bare }
}
