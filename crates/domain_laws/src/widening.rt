//! Widening: how facts that were assumed at the head of a loop give way to those of an edge back, by thresholds or to
//! the ends.

ghost use Rattle.std.specs.Prelude.{◌≡◌, ◌≤◌, ◌≤ℤ◌, IfSome, int_le, nat_le, find, reverse, if◌then◌else◌, pos, negsuc, ◌-◌, ◌^◌};
ghost use Rattle.term_form.specs.Narrower.{IsNarrower, KnowsBitsOf, RefinesRest};
ghost use Rattle.domain_laws.specs.Widening.{IsWidened, IsWidenedByThreshold, IsWidenedToExtremes, HasBitsOrNone, HasRestOrNone, signed_below, signed_above, unsigned_below, unsigned_above};

use term_form::{Facts, anything, hull, knows_bits_of, refines_rest};

/// How facts that were assumed at the head of a loop give way to those of an edge back.
#[derive(Clone, Copy, Debug, PartialEq, Eq)]
pub enum Widening {
    /// bounds that were passed move to thresholds; bits and congruences take the hull
    Threshold,
    /// bounds that were passed go to their ends; bits and congruences that were not covered are dropped
    Extreme,
}

/// The facts that were assumed, widened by those of an edge back. They hold of all words of both. Takes no memory.
///
/// With `Threshold` a bound that was passed moves outward to the nearest threshold that back does not pass: the ends of the
/// word and the greatest numbers of the types. With `Extreme` it goes to its end.
pub fn widened(assumed: &Facts, back: &Facts, how: Widening) -> Facts
    ensures is { IsWidened assumed.now back.now how result }
    ensures assumed_in { IsNarrower assumed.now result }
    ensures back_in { IsNarrower back.now result }
{
    match how {
        Widening::Threshold => by_threshold(assumed, back),
        Widening::Extreme => to_extremes(assumed, back),
    }
}

const SIGNED: [i32; 10] = [
    i32::MIN,
    -32768,
    -128,
    -1,
    0,
    127,
    255,
    32767,
    65535,
    i32::MAX,
];

const UNSIGNED: [u32; 7] = [0, 127, 255, 32767, 65535, 2147483647, u32::MAX];

// Each bound that was passed at a threshold.
fn by_threshold(assumed: &Facts, back: &Facts) -> Facts
    ensures is { IsWidenedByThreshold assumed.now back.now result }
    ensures assumed_in { IsNarrower assumed.now result }
    ensures back_in { IsNarrower back.now result }
{
    let both = hull(assumed, back);
    Facts {
        low: low_by_threshold(assumed.low, back.low),
        high: high_by_threshold(assumed.high, back.high),
        least: least_by_threshold(assumed.least, back.least),
        most: most_by_threshold(assumed.most, back.most),
        zeros: both.zeros,
        ones: both.ones,
        modulus: both.modulus,
        rest: both.rest,
    }
}

fn low_by_threshold(assumed: i32, back: i32) -> i32
    ensures is { result ≡ (if int_le assumed back then assumed else signed_below back) }
    ensures assumed_in { result ≤ℤ assumed }
    ensures back_in { result ≤ℤ back }
{
    if assumed <= back {
        return assumed;
    }
    last_at_most(&SIGNED, back).unwrap_or(i32::MIN)
}

fn high_by_threshold(assumed: i32, back: i32) -> i32
    ensures is { result ≡ (if int_le back assumed then assumed else signed_above back) }
    ensures assumed_in { assumed ≤ℤ result }
    ensures back_in { back ≤ℤ result }
{
    if back <= assumed {
        return assumed;
    }
    first_at_least(&SIGNED, back).unwrap_or(i32::MAX)
}

fn least_by_threshold(assumed: u32, back: u32) -> u32
    ensures is { result ≡ (if nat_le assumed back then assumed else unsigned_below back) }
    ensures assumed_in { result ≤ assumed }
    ensures back_in { result ≤ back }
{
    if assumed <= back {
        return assumed;
    }
    last_unsigned_at_most(&UNSIGNED, back).unwrap_or(0)
}

fn most_by_threshold(assumed: u32, back: u32) -> u32
    ensures is { result ≡ (if nat_le back assumed then assumed else unsigned_above back) }
    ensures assumed_in { assumed ≤ result }
    ensures back_in { back ≤ result }
{
    if back <= assumed {
        return assumed;
    }
    first_unsigned_at_least(&UNSIGNED, back).unwrap_or(u32::MAX)
}

fn last_at_most(thresholds: &[i32], bound: i32) -> Option<i32>
    ensures is { result ≡ find (λ t. int_le t bound) (reverse thresholds.now) }
    ensures below { IfSome result (λ t. t ≤ℤ bound) }
{
    thresholds.iter().rev().copied().find(|t| *t <= bound)
}

fn first_at_least(thresholds: &[i32], bound: i32) -> Option<i32>
    ensures is { result ≡ find (λ t. int_le bound t) thresholds.now }
    ensures above { IfSome result (λ t. bound ≤ℤ t) }
{
    thresholds.iter().copied().find(|t| bound <= *t)
}

fn last_unsigned_at_most(thresholds: &[u32], bound: u32) -> Option<u32>
    ensures is { result ≡ find (λ t. nat_le t bound) (reverse thresholds.now) }
    ensures below { IfSome result (λ t. t ≤ bound) }
{
    thresholds.iter().rev().copied().find(|t| *t <= bound)
}

fn first_unsigned_at_least(thresholds: &[u32], bound: u32) -> Option<u32>
    ensures is { result ≡ find (λ t. nat_le bound t) thresholds.now }
    ensures above { IfSome result (λ t. bound ≤ t) }
{
    thresholds.iter().copied().find(|t| bound <= *t)
}

// Each bound that was passed at its end.
fn to_extremes(assumed: &Facts, back: &Facts) -> Facts
    ensures is { IsWidenedToExtremes assumed.now back.now result }
    ensures assumed_in { IsNarrower assumed.now result }
    ensures back_in { IsNarrower back.now result }
{
    let bits = with_bits_or_none(assumed, back);
    let congruence = with_rest_or_none(assumed, back);
    Facts {
        low: low_to_extreme(assumed.low, back.low),
        high: high_to_extreme(assumed.high, back.high),
        least: least_to_extreme(assumed.least, back.least),
        most: most_to_extreme(assumed.most, back.most),
        zeros: bits.zeros,
        ones: bits.ones,
        modulus: congruence.modulus,
        rest: congruence.rest,
    }
}

fn low_to_extreme(assumed: i32, back: i32) -> i32
    ensures is { result ≡ (if int_le assumed back then assumed else negsuc (2 ^ 31 - 1)) }
    ensures assumed_in { result ≤ℤ assumed }
    ensures back_in { result ≤ℤ back }
{
    if assumed <= back { assumed } else { i32::MIN }
}

fn high_to_extreme(assumed: i32, back: i32) -> i32
    ensures is { result ≡ (if int_le back assumed then assumed else pos (2 ^ 31 - 1)) }
    ensures assumed_in { assumed ≤ℤ result }
    ensures back_in { back ≤ℤ result }
{
    if back <= assumed { assumed } else { i32::MAX }
}

fn least_to_extreme(assumed: u32, back: u32) -> u32
    ensures is { result ≡ (if nat_le assumed back then assumed else 0) }
    ensures assumed_in { result ≤ assumed }
    ensures back_in { result ≤ back }
{
    if assumed <= back { assumed } else { 0 }
}

fn most_to_extreme(assumed: u32, back: u32) -> u32
    ensures is { result ≡ (if nat_le back assumed then assumed else 2 ^ 32 - 1) }
    ensures assumed_in { assumed ≤ result }
    ensures back_in { back ≤ result }
{
    if back <= assumed { assumed } else { u32::MAX }
}

fn with_bits_or_none(assumed: &Facts, back: &Facts) -> Facts
    ensures is { HasBitsOrNone assumed.now back.now result }
    ensures assumed_in { KnowsBitsOf assumed.now result }
    ensures back_in { KnowsBitsOf back.now result }
{
    if knows_bits_of(back, assumed) {
        *assumed
    } else {
        anything()
    }
}

fn with_rest_or_none(assumed: &Facts, back: &Facts) -> Facts
    ensures is { HasRestOrNone assumed.now back.now result }
    ensures assumed_in { RefinesRest assumed.now result }
    ensures back_in { RefinesRest back.now result }
{
    if refines_rest(back, assumed) {
        *assumed
    } else {
        anything()
    }
}
