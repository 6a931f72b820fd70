//! Preprocessing numbers and integer constants (C11 6.4.8, 6.4.4.1): which bytes belong to one, its value and its type.
//! The types that a suffix allows are tables, in the order of their ranks.

ghost use Rattle.std.specs.Prelude.{◌≡◌, ◌≤◌, ◌<◌, ◌^◌, ◌+◌, length, IfSome, SomeIff, IsTrue};
ghost use Rattle.std.specs.Char.{digit_value};
ghost use Rattle.std.specs.List.{list_any};
ghost use Rattle.std.specs.Option.{option_map};
ghost use Rattle.std.specs.Str.Parse.{digits_value};
ghost use Rattle.c_lexer.specs.Numbers as spec;
ghost use Rattle.c_lexer.specs.Scan as scan;

use crate::name::is_word;
use crate::reading::Reading;
use c_tree::{Feature, IntKind, TokenKind};

/// The integer types that a constant may have (C11 6.4.4.1p5), in the order of their ranks.
#[derive(Clone, Copy)]
enum IntType {
    Int,
    Unsigned,
    Long,
    UnsignedLong,
    LongLong,
    UnsignedLongLong,
}

/// Whether `u` stands in a suffix, and how many `l`.
#[derive(Clone, Copy)]
struct Suffix {
    unsigned: bool,
    longs: u8,
}

/// The types of decimal constants without a `u`.
const DECIMAL: [IntType; 3] = [IntType::Int, IntType::Long, IntType::LongLong];

/// The types of octal and hexadecimal constants without a `u`.
const OTHER: [IntType; 6] = [
    IntType::Int,
    IntType::Unsigned,
    IntType::Long,
    IntType::UnsignedLong,
    IntType::LongLong,
    IntType::UnsignedLongLong,
];

/// The types of constants with a `u`.
const WITH_U: [IntType; 3] = [
    IntType::Unsigned,
    IntType::UnsignedLong,
    IntType::UnsignedLongLong,
];

fn is_sign(b: u8) -> bool
    ensures { result ≡ spec.is_sign b }
{
    b == b'+' || b == b'-'
}

fn is_e(b: u8) -> bool
    ensures { result ≡ spec.is_e b }
{
    b == b'e' || b == b'E'
}

fn is_p(b: u8) -> bool
    ensures { result ≡ spec.is_p b }
{
    b == b'p' || b == b'P'
}

/// Whether a byte goes on with a number, behind its last byte so far.
fn goes_on(last: u8, b: u8) -> bool
    ensures { result ≡ spec.goes_on last b }
{
    is_word(b) || b == b'.' || (is_sign(b) && (is_e(last) || is_p(last)))
}

/// Whether a number begins in front: a digit, or a point and a digit.
pub fn begins_number(bytes: &[u8]) -> bool
    ensures value { result ≡ spec.begins_number bytes.now }
    ensures within { IsTrue result → 0 < length bytes.now }
{
    match bytes {
        [b'.', b, ..] => b.is_ascii_digit(),
        [b, ..] => b.is_ascii_digit(),
        [] => false,
    }
}

/// How many bytes go on with a number whose last byte so far is given.
pub fn number_len(last: u8, bytes: &[u8]) -> usize
    ensures value { result ≡ scan.number_len last bytes.now }
    ensures within { result ≤ length bytes.now }
{
    let mut last = last;
    let mut length: usize = 0;
    let mut rest = bytes;
    'number: while let [b, more @ ..] = rest {
        if !goes_on(last, *b) {
            return length;
        }
        length += 1;
        last = *b;
        rest = more;
    }
    length
}

/// The value of a digit of a base up to 36, and 36 for any other byte.
fn digit_value(b: u8) -> u8
    ensures { result ≡ digit_value b }
{
    match b {
        b'0'..=b'9' => b - b'0',
        b'A'..=b'Z' => b - b'A' + 10,
        b'a'..=b'z' => b - b'a' + 10,
        _ => 36,
    }
}

/// How many digits of a base stand in front.
pub fn digit_count(base: u8, bytes: &[u8]) -> usize
    ensures value { result ≡ spec.digit_count base bytes.now }
    ensures within { result ≤ length bytes.now }
{
    bytes.iter().take_while(|b| digit_value(**b) < base).count()
}

/// The number that digits write in a base, if it is below 2 ^ 64.
#[tactic(auto, using(crate::proofs::Values::digits_value_grows))]
pub fn value_of(base: u8, digits: &[u8]) -> Option<u64>
    requires { 0 < base }
    ensures { SomeIff result (digits_value base digits.now < 2 ^ 64) (digits_value base digits.now) }
{
    let mut value: u64 = 0;
    let mut rest = digits;
    'digits: while let [digit, more @ ..] = rest {
        let shifted = value.checked_mul(u64::from(base))?;
        value = shifted.checked_add(u64::from(digit_value(*digit)))?;
        rest = more;
    }
    Some(value)
}

/// The suffix that a text is.
fn suffix_of(text: &[u8]) -> Option<Suffix>
    ensures { result ≡ spec.suffix_of text.now }
{
    let (unsigned, longs) = match text {
        [] => (false, 0),
        [b'u' | b'U'] => (true, 0),
        [b'l' | b'L'] => (false, 1),
        [b'u' | b'U', b'l' | b'L'] | [b'l' | b'L', b'u' | b'U'] => (true, 1),
        b"ll" | b"LL" => (false, 2),
        [b'u' | b'U', b'l', b'l'] | [b'u' | b'U', b'L', b'L'] => (true, 2),
        [b'l', b'l', b'u' | b'U'] | [b'L', b'L', b'u' | b'U'] => (true, 2),
        _ => return None,
    };
    Some(Suffix { unsigned, longs })
}

impl IntType {
    /// The greatest value.
    fn greatest(self) -> u64
        ensures { result ≡ spec.greatest self }
    {
        match self {
            IntType::Int | IntType::Long => 0x7fff_ffff,
            IntType::Unsigned | IntType::UnsignedLong => 0xffff_ffff,
            IntType::LongLong => 0x7fff_ffff_ffff_ffff,
            IntType::UnsignedLongLong => 0xffff_ffff_ffff_ffff,
        }
    }

    /// How many times `long` stands in the name.
    fn longs(self) -> u8
        ensures { result ≡ spec.longs_of self }
    {
        match self {
            IntType::Int | IntType::Unsigned => 0,
            IntType::Long | IntType::UnsignedLong => 1,
            IntType::LongLong | IntType::UnsignedLongLong => 2,
        }
    }
}

/// The types that a constant may have.
fn types(base: u8, unsigned: bool) -> &'static [IntType]
    ensures { result.now ≡ spec.types base unsigned }
{
    if unsigned {
        &WITH_U
    } else if base == 10 {
        &DECIMAL
    } else {
        &OTHER
    }
}

/// The first type of its list that a constant may have.
#[tactic(auto, unfolding(crate::specs::Numbers::type_of))]
fn type_of(base: u8, value: u64, suffix: Suffix) -> Option<IntType>
    ensures value { result ≡ spec.type_of (record { base = base; value = value; suffix = suffix }) }
    ensures holds { IfSome result (λ t. value ≤ spec.greatest t) }
{
    types(base, suffix.unsigned)
        .iter()
        .copied()
        .find(|t| suffix.longs <= t.longs() && value <= t.greatest())
}

/// What a constant is read as, by its value and type.
fn type_reading(value: u64, kind: Option<IntType>) -> Reading
    requires { IfSome kind (λ t. value ≤ spec.greatest t) }
    ensures { result ≡ spec.reading_of_type value kind }
{
    let kind = match kind {
        Some(IntType::Int) => IntKind::Int,
        Some(IntType::Unsigned) => IntKind::Unsigned,
        Some(IntType::Long) => IntKind::Long,
        Some(IntType::UnsignedLong) => IntKind::UnsignedLong,
        Some(IntType::LongLong) => return Reading::LeftOut(Feature::LongLong),
        Some(IntType::UnsignedLongLong) => return Reading::LeftOut(Feature::LongLong),
        None => return Reading::Bad(0),
    };
    Reading::Token(TokenKind::Number {
        value: value as u32,
        kind,
    })
}

fn begins_hexadecimal(text: &[u8]) -> bool
    ensures { result ≡ spec.begins_hexadecimal text.now }
{
    matches!(text, [b'0', b'x' | b'X', ..])
}

fn has_point(text: &[u8]) -> bool
    ensures { result ≡ list_any spec.is_point text.now }
{
    text.iter().any(|b| *b == b'.')
}

fn has_e(text: &[u8]) -> bool
    ensures { result ≡ list_any spec.is_e text.now }
{
    text.iter().any(|b| is_e(*b))
}

fn has_p(text: &[u8]) -> bool
    ensures { result ≡ list_any spec.is_p text.now }
{
    text.iter().any(|b| is_p(*b))
}

/// Whether a number that is no integer constant is a floating one.
fn is_floating(text: &[u8]) -> bool
    ensures { result ≡ spec.is_floating text.now }
{
    if begins_hexadecimal(text) {
        has_point(text) || has_p(text)
    } else {
        has_point(text) || has_e(text)
    }
}

/// What an integer constant is read as.
#[tactic(auto, using(crate::proofs::Values::type_of_none))]
fn constant_reading(base: u8, digits: &[u8], suffix: Suffix) -> Reading
    requires { 0 < base }
    ensures { result ≡ spec.reading_of_constant (record { base = base; value = digits_value base digits.now; suffix = suffix }) }
{
    match value_of(base, digits) {
        Some(value) => type_reading(value, type_of(base, value, suffix)),
        None => Reading::Bad(0),
    }
}

/// An integer constant in a base, if a number without its prefix is one.
fn constant_in(base: u8, text: &[u8]) -> Option<Reading>
    requires { 0 < base }
    ensures { result ≡ option_map spec.reading_of_constant (spec.constant_in base text.now) }
{
    let count = digit_count(base, text);
    if count == 0 {
        return None;
    }
    let suffix = suffix_of(&text[count..])?;
    Some(constant_reading(base, &text[..count], suffix))
}

/// An integer constant, if a number is one.
#[tactic(auto, unfolding(crate::specs::Numbers::constant_of))]
fn constant(text: &[u8]) -> Option<Reading>
    ensures { result ≡ option_map spec.reading_of_constant (spec.constant_of text.now) }
{
    match text {
        [b'0', b'x' | b'X', digits @ ..] => constant_in(16, digits),
        [b'0', ..] => constant_in(8, text),
        _ => constant_in(10, text),
    }
}

/// An integer constant, a floating constant, or neither.
#[tactic(auto, unfolding(crate::specs::Numbers::reading_of_number))]
pub fn number_reading(text: &[u8]) -> Reading
    ensures { result ≡ spec.reading_of_number text.now }
{
    match constant(text) {
        Some(reading) => reading,
        None if is_floating(text) => Reading::LeftOut(Feature::Float),
        None => Reading::Bad(0),
    }
}
