//! What is known of a word, with the test whether a word meets it, and the hull and the meet of two facts, each put
//! together from its parts.

ghost use Rattle.std.specs.Prelude.{◌≡◌, ◌↔◌, ◌⊎◌, ℕ, ◌<◌, ◌^◌, IsTrue};
ghost use Rattle.term_form.specs.Meets.{Meets, meets, LiesIn, IsHull, IsMeet};

use crate::{bits, congruence, interval};

/// What is known of a word: two intervals, known bits and a congruence.
///
/// A word meets the facts where all four parts hold of it. Nothing asks that the parts fit one
/// another, or that any word meets them.
#[derive(Clone, Copy, Debug, PartialEq, Eq, Hash)]
pub struct Facts {
    /// the least value of the word read as signed
    pub low: i32,
    /// the greatest value of the word read as signed
    pub high: i32,
    /// the least value of the word read as unsigned
    pub least: u32,
    /// the greatest value of the word read as unsigned
    pub most: u32,
    /// the bits that are clear
    pub zeros: u32,
    /// the bits that are set
    pub ones: u32,
    /// the word read as signed is `rest` plus a multiple of this; 0 says that the word is `rest`
    pub modulus: u32,
    /// a number from 0 to 2^32 - 1; beside the modulus 0 it is the word itself
    pub rest: u32,
}

/// Whether the word meets the facts.
pub fn holds(facts: &Facts, word: u32) -> bool
    ensures exact { IsTrue result ↔ Meets facts.now word }
    ensures test { result ≡ meets facts.now word }
{
    interval::is_between(facts, word)
        && bits::has_bits(facts, word)
        && congruence::has_rest(facts, word)
}

/// The hull of two facts, part by part: it holds of each word of either.
///
/// The congruence has the greatest modulus that holds the words of both, and the least rest that
/// goes with it.
pub fn hull(a: &Facts, b: &Facts) -> Facts
    ensures parts { IsHull a.now b.now result }
    ensures first { LiesIn a.now result }
    ensures second { LiesIn b.now result }
    ensures either { (word : ℕ) → word < 2 ^ 32 → Meets a.now word ⊎ Meets b.now word → Meets result word }
{
    let congruence = congruence::hull(a, b);
    Facts {
        low: a.low.min(b.low),
        high: a.high.max(b.high),
        least: a.least.min(b.least),
        most: a.most.max(b.most),
        zeros: a.zeros & b.zeros,
        ones: a.ones & b.ones,
        modulus: congruence.modulus,
        rest: congruence.rest,
    }
}

/// The meet of two facts, part by part: it holds of each word of both.
///
/// Of the two congruences it keeps that of the larger modulus, 0 being larger than all others. Where
/// one modulus divides the other that loses nothing.
pub fn meet(a: &Facts, b: &Facts) -> Facts
    ensures parts { IsMeet a.now b.now result }
    ensures both { (word : ℕ) → word < 2 ^ 32 → Meets a.now word → Meets b.now word → Meets result word }
{
    let congruence = congruence::meet(a, b);
    Facts {
        low: a.low.max(b.low),
        high: a.high.min(b.high),
        least: a.least.max(b.least),
        most: a.most.min(b.most),
        zeros: a.zeros | b.zeros,
        ones: a.ones | b.ones,
        modulus: congruence.modulus,
        rest: congruence.rest,
    }
}
