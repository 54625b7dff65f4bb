//! What keys are keys of: the types of columns, and how each is sorted.

ghost use Rattle.std.specs.Prelude.{◌≡◌, ◌≢◌, IfErr, IfOk, MatchOption, None, OnOk, Option, Some, is_none, length};
ghost use Rattle.std.specs.Prelude.{map, position};
ghost use Rattle.arrow_columns.specs.declared.kinds.Kind.{Kind};
ghost use Rattle.column_keys.specs.Words.{AreKinds, AreOptions, HaveTypes, IsFirstBadOptions, IsOptionsError};
ghost use Rattle.column_keys.specs.Words.{IsTypesError, OutOfMemory, kind_at, kind_of_code, options_in, type_of};
ghost use Rattle.column_keys.specs.Words.{type_of_kind, types_of_kinds};

use crate::errors::KeysError;
use crate::key_columns::options_of_bits;
use arrow_columns::Kind;
use column_cells::dtype_of;
use column_items::KindCode;
use std::alloc::Global;
use vortex_dtype::DType;
use vortex_row::SortOptions;

/// The types of columns, and how each is sorted.
#[derive(Drop)]
pub(crate) struct ColumnTypes {
    /// The type of each column.
    pub(crate) dtypes: Vec<DType>,
    /// How each column is sorted.
    pub(crate) options: Vec<SortOptions>,
}

/// `BadOptions` for the first byte that stands for no options.
pub(crate) fn expect_options(options: &[u8]) -> Result<(), KeysError>
    ensures options { OnOk result (AreOptions options.now (length options.now)) }
    ensures fault { IfErr result (IsOptionsError options.now) }
{
    match first_bad_options(options) {
        Some(column) => Err(KeysError::BadOptions { column }),
        None => Ok(()),
    }
}

/// The first byte that stands for no options: above 3.
fn first_bad_options(options: &[u8]) -> Option<usize>
    ensures { MatchOption result
        (AreOptions options.now (length options.now)) (IsFirstBadOptions options.now) }
{
    options.iter().position(|byte| *byte > 3)
}

/// A code of a kind of columns: plain, or with a precision and a scale.
pub(crate) trait ToKind {
    ghost kind_of: { Self → Option Kind };

    /// The kind, if there is one.
    fn to_kind(&self) -> Option<Kind>
        ensures { result ≡ kind_of self.now };
}

impl ToKind for u8 {
    ghost kind_of = { kind_at };

    fn to_kind(&self) -> Option<Kind> {
        Kind::from_code(*self)
    }
}

impl ToKind for KindCode {
    ghost kind_of = { kind_of_code };

    fn to_kind(&self) -> Option<Kind> {
        self.kind()
    }
}

/// The kinds with these codes, of so many columns with a byte of options each.
///
/// `WrongLength` if they are not as many as each other, before all else. Then `BadOptions` for the
/// first byte that stands for no options, and `UnknownKind` for the first code of no kind, before
/// memory is asked for.
pub(crate) fn kinds_of_codes<C: ToKind>(
    alloc: Global,
    codes: &[C],
    options: &[u8],
    columns: usize,
) -> Result<Vec<Option<Kind>>, KeysError>
    ensures kinds { IfOk result (λ kinds. kinds.items ≡ map C.kind_of codes.now) }
    ensures types { OnOk result (HaveTypes (map C.kind_of codes.now) options.now) }
    ensures columns { OnOk result (columns ≡ length codes.now) }
    ensures fault { IfErr result (IsTypesError (map C.kind_of codes.now) options.now columns) }
{
    if options.len() != codes.len() || columns != codes.len() {
        return Err(KeysError::WrongLength);
    }
    expect_options(options)?;
    if let Some(column) = first_unknown(codes) {
        return Err(KeysError::UnknownKind { column });
    }
    let mut kinds = Vec::with_capacity(alloc, codes.len())?;
    for code in codes {
        kinds.push(code.to_kind())?;
    }
    Ok(kinds)
}

/// The first code of no kind.
fn first_unknown<C: ToKind>(codes: &[C]) -> Option<usize>
    ensures { result ≡ position (λ code. is_none (C.kind_of code)) codes.now }
{
    codes.iter().position(|code| code.to_kind().is_none())
}

/// The kind that was found.
pub(crate) fn known_kind(found: Option<Kind>) -> Kind
    requires { found ≢ None }
    ensures { found ≡ Some result }
{
    match found {
        Some(kind) => kind,
        None => unreachable!(),
    }
}

/// The types of the columns of these kinds, and how each is sorted by its byte of options.
pub(crate) fn read_types(
    alloc: Global,
    kinds: &[Option<Kind>],
    options: &[u8],
) -> Result<ColumnTypes, KeysError>
    requires { AreKinds kinds.now (length kinds.now) }
    ensures types { IfOk result
        (λ types. map type_of types.dtypes.items ≡ types_of_kinds kinds.now) }
    ensures options { IfOk result (λ types. types.options.items ≡ map options_in options.now) }
    ensures refused { IfErr result (λ e. e ≡ OutOfMemory) }
{
    let options = read_options(alloc, options)?;
    let dtypes = read_kinds(alloc, kinds)?;
    Ok(ColumnTypes { dtypes, options })
}

/// The options that bytes stand for.
fn read_options(alloc: Global, options: &[u8]) -> Result<Vec<SortOptions>, KeysError>
    ensures options { IfOk result (λ read. read.items ≡ map options_in options.now) }
    ensures refused { IfErr result (λ e. e ≡ OutOfMemory) }
{
    let mut read = Vec::with_capacity(alloc, options.len())?;
    for column in 0..options.len() {
        read.push(options_of_bits(options[column]))?;
    }
    Ok(read)
}

/// The type of the cells of a column of the kind.
fn kind_dtype(alloc: Global, kind: Kind) -> Result<DType, KeysError>
    ensures made { IfOk result (λ dtype. type_of dtype ≡ type_of_kind kind) }
    ensures refused { IfErr result (λ e. e ≡ OutOfMemory) }
{
    match dtype_of(alloc, kind) {
        Ok(dtype) => Ok(dtype),
        Err(_) => Err(KeysError::OutOfMemory),
    }
}

/// The types of these kinds.
fn read_kinds(alloc: Global, kinds: &[Option<Kind>]) -> Result<Vec<DType>, KeysError>
    requires { AreKinds kinds.now (length kinds.now) }
    ensures types { IfOk result (λ read. map type_of read.items ≡ types_of_kinds kinds.now) }
    ensures refused { IfErr result (λ e. e ≡ OutOfMemory) }
{
    let mut read = Vec::with_capacity(alloc, kinds.len())?;
    for column in 0..kinds.len() {
        let dtype = kind_dtype(alloc, known_kind(kinds[column]))?;
        read.push(dtype)?;
    }
    Ok(read)
}
