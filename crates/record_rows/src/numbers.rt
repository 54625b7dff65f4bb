//! Values of columns that integers store.

ghost use Rattle.std.specs.Prelude.{◌≡◌, IfSome};
ghost use Rattle.logical_types.specs.Words.{Writes};
ghost use Rattle.record_rows.specs.Numbers.{IsStoredNumber, integer_of_storage};

use crate::days::plain_day;
use crate::schema::Kind;
use crate::words::integer_of;
use logical_types::{LogicalType, StorageType, storage_of_word, storage_type};
use vortex_dtype::PType;
use vortex_pvalue::PValue;

/// The integer that stores the value of a word. None also if its kind is not stored so.
pub(crate) fn stored_number(kind: Kind, word: &[u8]) -> Option<PValue>
    ensures { IfSome result (IsStoredNumber kind word.now) }
{
    match kind {
        Kind::Integer(ptype) => integer_of(word, ptype),
        Kind::Logical(logical) => {
            let ptype = integer_of_storage(storage_type(logical))?;
            PValue::from_whole(storage_in(logical, word)?, ptype)
        }
        Kind::Utf8 | Kind::Binary | Kind::Bytes => None,
    }
}

/// The storage of the value of a logical type that a word writes.
fn storage_in(logical: LogicalType, word: &[u8]) -> Option<i128>
    ensures { IfSome result (Writes logical word.now) }
{
    match logical {
        LogicalType::Date => match plain_day(word) {
            Some(day) => Some(i128::from(day)),
            None => storage_of_word(logical, word),
        },
        _ => storage_of_word(logical, word),
    }
}

/// The type of the integers of a storage.
fn integer_of_storage(storage: StorageType) -> Option<PType>
    ensures { result ≡ integer_of_storage storage }
{
    match storage {
        StorageType::I32 => Some(PType::I32),
        StorageType::I64 => Some(PType::I64),
        StorageType::Bytes => None,
    }
}
