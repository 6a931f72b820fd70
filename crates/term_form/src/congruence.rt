//! The congruence of facts: the word read as signed is the rest plus a multiple of the modulus.

ghost use Rattle.std.specs.Prelude.{◌≡◌, ◌↔◌, ◌<◌, ◌^◌, IsTrue, ◌-ℤ◌, unsigned_abs};
ghost use Rattle.std.specs.Int.{IsGcd, ◌∣◌};
ghost use Rattle.term_form.specs.Interval.{signed};
ghost use Rattle.term_form.specs.Congruence.{IsCongruent, rest_number, HasRest, rests_apart, IsGreatestDivisor, IsHullOfCongruences, IsMeetOfCongruences};

use crate::facts::Facts;

/// A modulus and a rest.
#[derive(Clone, Copy)]
pub struct Congruence {
    pub modulus: u32,
    pub rest: u32,
}

/// The number that the rest stands for.
fn rest_of(facts: &Facts) -> i64
    ensures { result ≡ rest_number facts.now.modulus facts.now.rest }
{
    if facts.modulus == 0 {
        i64::from(facts.rest.cast_signed())
    } else {
        i64::from(facts.rest)
    }
}

/// How far the word, read as signed, is from the rest.
fn distance(facts: &Facts, word: u32) -> u64
    ensures { result ≡ unsigned_abs (signed word -ℤ rest_number facts.now.modulus facts.now.rest) }
{
    i64::from(word.cast_signed()).abs_diff(rest_of(facts))
}

/// How far the two rests are apart.
fn apart(a: &Facts, b: &Facts) -> u64
    ensures value { result ≡ rests_apart a.now.modulus a.now.rest b.now.modulus b.now.rest }
    ensures words { a.now.modulus ≡ 0 → b.now.modulus ≡ 0 → result < 2 ^ 32 }
{
    rest_of(a).abs_diff(rest_of(b))
}

/// Whether the first divides the second; 0 divides 0 alone.
fn divides(divisor: u64, number: u64) -> bool
    ensures { IsTrue result ↔ (divisor ∣ number) }
{
    if divisor == 0 {
        number == 0
    } else {
        number % divisor == 0
    }
}

/// Whether the word is one of the congruence.
pub fn has_rest(facts: &Facts, word: u32) -> bool
    ensures { IsTrue result ↔ HasRest facts.now.modulus facts.now.rest word }
{
    divides(u64::from(facts.modulus), distance(facts, word))
}

/// The greatest common divisor, after Euclid.
fn greatest_common_divisor(a: u64, b: u64) -> u64
    ensures { IsGcd a b result }
{
    let (mut divisor, mut rest) = (a, b);
    while rest != 0 {
        (divisor, rest) = (rest, divisor % rest);
    }
    divisor
}

/// The greatest modulus under which all words of both congruences have one rest.
fn common_modulus(a: &Facts, b: &Facts) -> u32
    ensures { IsGreatestDivisor a.now.modulus b.now.modulus (rests_apart a.now.modulus a.now.rest b.now.modulus b.now.rest) result }
{
    let moduli = greatest_common_divisor(u64::from(a.modulus), u64::from(b.modulus));
    greatest_common_divisor(moduli, apart(a, b)) as u32
}

/// The least rest that the congruence has under a divisor of its modulus.
fn least_rest(facts: &Facts, divisor: u32) -> u32
    requires { divisor ∣ facts.now.modulus }
    ensures same { IsCongruent divisor (rest_number facts.now.modulus facts.now.rest) (rest_number divisor result) }
    ensures least { 0 < divisor → result < divisor }
{
    if divisor == 0 {
        return facts.rest;
    }
    rest_of(facts).rem_euclid(i64::from(divisor)) as u32
}

/// The congruence of the greatest modulus that holds the words of both.
pub fn hull(a: &Facts, b: &Facts) -> Congruence
    ensures { IsHullOfCongruences a.now.modulus a.now.rest b.now.modulus b.now.rest result.modulus result.rest }
{
    let modulus = common_modulus(a, b);
    let rest = least_rest(a, modulus);
    Congruence { modulus, rest }
}

/// Of two congruences that of the larger modulus, 0 being larger than all others: where one modulus
/// divides the other and the two have a word in common, it holds of the words of both and no others.
pub fn meet(a: &Facts, b: &Facts) -> Congruence
    ensures { IsMeetOfCongruences a.now.modulus a.now.rest b.now.modulus b.now.rest result.modulus result.rest }
{
    let is_as_large = a.modulus == 0 || (b.modulus != 0 && b.modulus <= a.modulus);
    let larger = if is_as_large { a } else { b };
    Congruence {
        modulus: larger.modulus,
        rest: larger.rest,
    }
}
