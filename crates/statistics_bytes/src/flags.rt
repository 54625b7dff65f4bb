//! The byte of flags in the encoding of statistics.

ghost use Rattle.std.specs.Prelude.{◌≡◌, ◌≢◌, MatchOption, option_map};
ghost use Rattle.statistics_bytes.specs.declared.flags.BoundState.{BoundState};
ghost use Rattle.statistics_bytes.specs.declared.flags.Flags.{Flags};
ghost use Rattle.statistics_bytes.specs.Words.{bound_flags, flags, flags_byte, has_bound, known, known_bound};
ghost use Rattle.statistics_bytes.specs.Words.{option_copied, state_bits};

use vortex_statistics::{Bound, ColumnStatistics};

/// Whether a bound is there, and exact.
#[derive(Clone, Copy)]
pub(crate) enum BoundState {
    /// There is none.
    Missing,
    /// It is only a bound.
    Inexact,
    /// Some value is equal to it.
    Exact,
}

/// What the byte of flags says.
#[derive(Clone, Copy)]
pub(crate) struct Flags {
    /// Whether the count of nulls is known.
    pub(crate) has_null_count: bool,
    /// The lower bound.
    pub(crate) lower: BoundState,
    /// The upper bound.
    pub(crate) upper: BoundState,
}

impl Flags {
    /// Whether they say that there is a bound.
    pub(crate) fn has_bound(&self) -> bool
        ensures { result ≡ has_bound self.now }
    {
        !matches!(
            (self.lower, self.upper),
            (BoundState::Missing, BoundState::Missing)
        )
    }
}

/// The flags of a bound.
fn bound_flags(bound: Option<&Bound>) -> u8
    ensures { result ≡ bound_flags (option_map known_bound (option_copied bound.entry)) }
{
    match bound {
        None => 0,
        Some(bound) if bound.is_exact => 3,
        Some(_) => 1,
    }
}

/// The byte of flags of statistics.
pub(crate) fn flags_of(statistics: &ColumnStatistics) -> u8
    ensures { result ≡ flags (known statistics.now) }
{
    let counts = u8::from(statistics.null_count.is_some());
    let lower = bound_flags(statistics.lower.as_ref());
    let upper = bound_flags(statistics.upper.as_ref());
    counts + 2 * lower + 8 * upper
}

/// What two bits say of a bound. `None` if no bound has them.
fn state_from(bits: u8) -> Option<BoundState>
    ensures { MatchOption result
        ((state : BoundState) → state_bits state ≢ bits)
        (λ state. state_bits state ≡ bits) }
{
    match bits {
        0 => Some(BoundState::Missing),
        1 => Some(BoundState::Inexact),
        3 => Some(BoundState::Exact),
        _ => None,
    }
}

/// What a byte of flags says. `None` if no statistics have it.
#[tactic(auto, using(crate::proofs::FlagLaws::decoded))]
pub(crate) fn flags_from(byte: u8) -> Option<Flags>
    ensures { MatchOption result
        ((flags : Flags) → flags_byte flags ≢ byte)
        (λ flags. flags_byte flags ≡ byte) }
{
    let lower = state_from(byte / 2 % 4)?;
    let upper = state_from(byte / 8)?;
    Some(Flags {
        has_null_count: byte % 2 == 1,
        lower,
        upper,
    })
}
