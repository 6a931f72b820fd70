//! When facts are at most as wide as others, part by part, and the two ends of that order: one word alone, and any
//! word.

ghost use Rattle.std.specs.Prelude.{◌≡◌, ◌↔◌, ℕ, ◌<◌, ◌^◌, IsTrue};
ghost use Rattle.term_form.specs.Meets.{Meets};
ghost use Rattle.term_form.specs.Narrower.{IsNarrower, LiesWithin, KnowsBitsOf, RefinesRest, only_word, any_word};

use crate::facts::{Facts, hull};

/// The facts of one word alone.
pub fn only(word: u32) -> Facts
    ensures is { result ≡ only_word word }
    ensures holds { Meets result word }
    ensures alone { (n : ℕ) → Meets result n → n ≡ word }
{
    Facts {
        low: word.cast_signed(),
        high: word.cast_signed(),
        least: word,
        most: word,
        zeros: !word,
        ones: word,
        modulus: 0,
        rest: word,
    }
}

/// Facts that say nothing: every word meets them, and all facts are narrower.
pub fn anything() -> Facts
    ensures is { result ≡ any_word }
    ensures holds { (n : ℕ) → n < 2 ^ 32 → Meets result n }
{
    Facts {
        low: i32::MIN,
        high: i32::MAX,
        least: 0,
        most: u32::MAX,
        zeros: 0,
        ones: 0,
        modulus: 1,
        rest: 0,
    }
}

/// Whether the first facts are at most as wide as the others, part by part.
pub fn is_narrower(facts: &Facts, wider: &Facts) -> bool
    ensures { IsTrue result ↔ IsNarrower facts.now wider.now }
{
    lies_within(facts, wider) && knows_bits_of(facts, wider) && refines_rest(facts, wider)
}

/// Whether each interval lies in the other.
pub fn lies_within(facts: &Facts, wider: &Facts) -> bool
    ensures { IsTrue result ↔ LiesWithin facts.now wider.now }
{
    wider.low <= facts.low
        && facts.high <= wider.high
        && wider.least <= facts.least
        && facts.most <= wider.most
}

/// Whether each known bit of the others is known.
pub fn knows_bits_of(facts: &Facts, wider: &Facts) -> bool
    ensures { IsTrue result ↔ KnowsBitsOf facts.now wider.now }
{
    facts.zeros & wider.zeros == wider.zeros && facts.ones & wider.ones == wider.ones
}

/// Whether the congruence lies in the other: exactly where the hull of both has the modulus of the other.
pub fn refines_rest(facts: &Facts, wider: &Facts) -> bool
    ensures { IsTrue result ↔ RefinesRest facts.now wider.now }
{
    hull(facts, wider).modulus == wider.modulus
}
