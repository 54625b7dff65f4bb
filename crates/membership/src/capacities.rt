//! How many blocks a filter has.

ghost use Rattle.std.specs.Prelude.{◌≡◌, ◌*◌, ◌^◌, ◌<◌, ◌≤◌};
ghost use Rattle.membership.specs.BloomFilters.{max_blocks};
ghost use Rattle.membership.specs.Words.{blocks_for, capacity, exponent};

/// The largest number of blocks of a filter.
pub const MAX_BLOCKS: usize = 0x3ff_ffff;

/// The values that 1,000 blocks may get at a rate of false answers of 2^i millionths, for each i.
const CAPACITIES: [u64; 20] = [
    3_959, 4_552, 5_222, 5_981, 6_840, 7_815, 8_924, 10_188, 11_636, 13_301, 15_228, 17_476,
    20_126, 23_287, 27_126, 31_896, 38_026, 46_327, 58_641, 81_047,
];

/// How many blocks a filter of so many distinct values has, for a rate of false answers in
/// millionths. No more than `MAX_BLOCKS`: for more than their values the rate is higher.
#[tactic(auto, unfolding(crate::specs::Capacities::blocks_for))]
pub fn blocks_for(distinct_values: u64, false_positives_per_million: u32) -> usize
    ensures value { result ≡ blocks_for distinct_values false_positives_per_million }
    ensures some { 0 < result }
    ensures fits { result ≤ max_blocks }
{
    let capacity = capacity(false_positives_per_million.clamp(1, 524_287));
    let wanted = (distinct_values as u128 * 1_000).div_ceil(capacity as u128);
    wanted.clamp(1, MAX_BLOCKS as u128) as usize
}

/// The values that 1,000 blocks may get at this rate: on a line between those at powers of two.
fn capacity(rate: u32) -> u64
    requires some { 0 < rate }
    requires half { rate < 524288 }
    ensures value { result ≡ capacity rate }
    ensures some { 0 < result }
{
    let (exponent, power) = power_below(rate);
    let above = rate as u64 - power;
    (CAPACITIES[exponent] * (power - above) + CAPACITIES[exponent + 1] * above) / power
}

/// The greatest power of two that is at most a rate, after its exponent.
fn power_below(rate: u32) -> (usize, u64)
    requires some { 0 < rate }
    requires half { rate < 524288 }
    ensures exponent { result.0 ≡ exponent rate }
    ensures power { result.1 ≡ 2 ^ result.0 }
    ensures within { result.0 < 19 }
    ensures below { result.1 ≤ rate }
    ensures above { rate < 2 * result.1 }
{
    let exponent = 31 - rate.leading_zeros();
    (exponent as usize, 1 << exponent)
}
