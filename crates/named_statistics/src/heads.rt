// SPDX-License-Identifier: Apache-2.0
//! What stands before the statistics of a logical type: a version, and the name of the type.

ghost use Rattle.std.specs.Prelude.{◌≡◌};
ghost use Rattle.named_statistics.specs.Words.{first_parameter, head_of, id_byte, second_parameter, type_of};

use arrayvec::ArrayVec;
use vortex_dtype::DType;

/// The version of bytes that name a logical type.
const VERSION: u8 = 2;

/// What stands before the statistics of a column of the type: nothing, if no logical type has its id.
/// For many pieces of one column it is made once, and `decode_piece_by_head_into` takes it.
pub fn head_of(dtype: &DType) -> ArrayVec<u8, 4>
    ensures { result.items ≡ head_of (type_of dtype.now) }
{
    let mut head = ArrayVec::new();
    let DType::Extension(extension) = dtype else {
        return head;
    };
    let id = id_byte(extension.id().as_str());
    if id == 0 {
        return head;
    }
    let metadata = extension.metadata().as_slice();
    head.push(VERSION);
    head.push(id);
    head.push(first_parameter(metadata));
    head.push(second_parameter(metadata));
    head
}

/// The byte of an extension's id. 0 if no logical type has it.
#[tactic(auto, unfolding(crate::specs::Heads::id_byte))]
fn id_byte(id: &str) -> u8
    ensures { result ≡ id_byte id.now }
{
    if id == "doqallin.f64" {
        1
    } else if id == "doqallin.f32" {
        2
    } else if id == "doqallin.decimal" {
        3
    } else if id == "vortex.date" {
        4
    } else if id == "vortex.time" {
        5
    } else if id == "vortex.timestamp" {
        6
    } else {
        0
    }
}

/// The precision of decimals, and the unit of times.
fn first_parameter(metadata: &[u8]) -> u8
    ensures { result ≡ first_parameter metadata.now }
{
    match metadata {
        [first, ..] => *first,
        [] => 0,
    }
}

/// The scale of decimals, and of timestamps whether they have a zone.
fn second_parameter(metadata: &[u8]) -> u8
    ensures { result ≡ second_parameter metadata.now }
{
    match metadata {
        [_, _, _, _, ..] => 1,
        [_, second, ..] => *second,
        _ => 0,
    }
}
