// SPDX-License-Identifier: Apache-2.0
//! Statistics in bytes that name a logical type, appended.

ghost use Rattle.std.specs.Prelude.{◌≡◌, ◌++◌, ◌+◌, ◌≤◌, ◌⊎◌, Err, IfErr, IsOk, OnErr, OnOk, length};
ghost use Rattle.named_statistics.specs.Words.{HasNoVariants, HasVariant, IsHeldKnown, OutOfMemory, known};
ghost use Rattle.named_statistics.specs.Words.{named_encoding, type_of, vec_capacity, vec_len};

use crate::heads::head_of;
use statistics_bytes::append_statistics;
use vortex_dtype::DType;
use vortex_statistics::{ColumnStatistics, StatisticsError};

/// Appends the statistics of a column of the type in bytes, and nothing else. Those of a logical type
/// begin with its name, and any others are just the encoding that `append_statistics` appends.
///
/// `HasVariant` only if a variant stands in the type of a bound or in a bound, at any depth. Else
/// `OutOfMemory` is the only refusal, and never comes if `out` has capacity for the bytes. After a
/// refusal `out` has the bytes that it had.
#[tactic(auto, using(crate::proofs::NamedSteps::written))]
pub fn append_named_statistics(
    dtype: &DType,
    statistics: &ColumnStatistics,
    out: &mut Vec<u8>,
) -> Result<(), StatisticsError>
    ensures appended { OnOk result
        (out.new.items ≡ out.old.items ++ named_encoding (type_of dtype.now) (known statistics.now)) }
    ensures held { OnOk result (IsHeldKnown (known statistics.now)) }
    ensures ordered { OnOk result (HasNoVariants (known statistics.now)) }
    ensures variant { result ≡ Err HasVariant → ¬ (HasNoVariants (known statistics.now)) }
    ensures refused { IfErr result (λ e. (e ≡ HasVariant) ⊎ (e ≡ OutOfMemory)) }
    ensures room { HasNoVariants (known statistics.now) → vec_len out.old
        + length (named_encoding (type_of dtype.now) (known statistics.now)) ≤ vec_capacity out.old
        → IsOk result }
    ensures unchanged { OnErr result (out.new.items ≡ out.old.items) }
{
    let start = out.len();
    out.extend_from_slice(head_of(dtype).as_slice())?;
    let appended = append_statistics(statistics, out);
    if appended.is_err() {
        out.truncate(start);
    }
    appended
}
