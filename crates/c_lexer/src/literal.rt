//! Character constants and string literals (C11 6.4.4.4, 6.4.5): where one ends, and the values of its elements.
//! Adjacent strings stay apart here; later layers join them.

ghost use Rattle.std.specs.Prelude.{◌≡◌, ◌≤◌, ◌<◌, ◌+◌, ◌^◌, false, length, IfOk, IfSome};
ghost use Rattle.std.specs.Str.Parse.{digits_value};
ghost use Rattle.c_lexer.specs.Literals as spec;
ghost use Rattle.c_lexer.specs.Scan as scan;

use crate::number::{digit_count, value_of};
use crate::reading::Reading;
use c_tree::{Feature, TokenKind};
use std::alloc::{AllocError, Global};
use word_ops::Text;

/// An element of a literal (C11 6.4.4.4).
#[derive(Clone, Copy)]
enum Element {
    /// A byte, or an escape for it.
    Byte(u8),
    /// `\u` or `\U`.
    Universal,
    /// An unknown escape, or one above 255.
    Bad,
}

/// The elements of a literal.
#[derive(Drop)]
enum Body {
    /// All of them are bytes: their values.
    Values(Text),
    /// `\u` or `\U` is among them.
    Universal,
    /// The first bad one stands at this place in the literal.
    Bad(usize),
}

/// The opening quote of a literal, and its length with an encoding prefix.
#[derive(Clone, Copy)]
pub struct Opening {
    pub quote: u8,
    pub length: usize,
}

fn is_quote(b: u8) -> bool
    ensures { result ≡ spec.is_quote b }
{
    b == b'\'' || b == b'"'
}

/// L, u or U.
fn is_prefix(b: u8) -> bool
    ensures { result ≡ spec.is_prefix b }
{
    matches!(b, b'L' | b'u' | b'U')
}

/// The opening in front: L, u or U before either quote, u8 before a double one only.
pub fn opening_of(bytes: &[u8]) -> Option<Opening>
    ensures value { result ≡ spec.opening_of bytes.now }
    ensures within { IfSome result (λ o. (1 ≤ o.length) × (o.length ≤ length bytes.now)) }
{
    let (quote, length) = match bytes {
        [a, ..] if is_quote(*a) => (*a, 1),
        [a, b, ..] if is_prefix(*a) && is_quote(*b) => (*b, 2),
        [b'u', b'8', b'"', ..] => (b'"', 3),
        _ => return None,
    };
    Some(Opening { quote, length })
}

/// The length of what follows an opening up to its closing quote, if the literal ends in its line.
pub fn closing_len(quote: u8, bytes: &[u8]) -> Option<usize>
    ensures value { result ≡ scan.closing_len quote false bytes.now }
    ensures within { IfSome result (λ n. (1 ≤ n) × (n ≤ length bytes.now)) }
{
    let mut after_backslash = false;
    let mut length: usize = 0;
    let mut rest = bytes;
    'inside: while let [b, more @ ..] = rest {
        if *b == b'\n' {
            return None;
        }
        length += 1;
        if *b == quote && !after_backslash {
            return Some(length);
        }
        after_backslash = *b == b'\\' && !after_backslash;
        rest = more;
    }
    None
}

/// The escape of one letter or mark, by what follows its backslash.
fn simple_escape(b: u8) -> Element
    ensures { result ≡ spec.simple_escape b }
{
    match b {
        b'\'' | b'"' | b'?' | b'\\' => Element::Byte(b),
        b'a' => Element::Byte(7),
        b'b' => Element::Byte(8),
        b'f' => Element::Byte(12),
        b'n' => Element::Byte(10),
        b'r' => Element::Byte(13),
        b't' => Element::Byte(9),
        b'v' => Element::Byte(11),
        _ => Element::Bad,
    }
}

/// The element that digits of a base stand for.
fn numbered(base: u8, digits: &[u8]) -> Element
    requires { 0 < base }
    ensures { result ≡ spec.byte_or_bad (digits_value base digits.now) }
{
    match value_of(base, digits) {
        Some(value) if value < 256 => Element::Byte(value as u8),
        _ => Element::Bad,
    }
}

/// The escape behind a backslash, and its length.
fn escape(bytes: &[u8]) -> (Element, usize)
    ensures value { result ≡ spec.escape bytes.now }
    ensures within { result.1 ≤ length bytes.now }
{
    match bytes {
        [b'0'..=b'7', ..] => {
            let count = digit_count(8, bytes).min(3);
            (numbered(8, &bytes[..count]), count)
        }
        [b'x', rest @ ..] => {
            let count = digit_count(16, rest);
            if count == 0 {
                (Element::Bad, 1)
            } else {
                (numbered(16, &rest[..count]), count + 1)
            }
        }
        [b'u' | b'U', ..] => (Element::Universal, 1),
        [b, ..] => (simple_escape(*b), 1),
        [] => (Element::Bad, 0),
    }
}

/// The element in front, and its length.
#[tactic(auto, unfolding(crate::specs::Literals::element_of))]
fn element_of(body: &[u8]) -> (Element, usize)
    ensures value { result ≡ spec.element_of body.now }
    ensures within { result.1 ≤ length body.now }
    ensures moves { 0 < length body.now → 0 < result.1 }
{
    match body {
        [b'\\', rest @ ..] => {
            let (element, length) = escape(rest);
            (element, length + 1)
        }
        [b, ..] => (Element::Byte(*b), 1),
        [] => (Element::Bad, 0),
    }
}

/// The elements between the quotes, of which the first stands at a place in the literal.
fn body_of(alloc: Global, at: usize, inside: &[u8]) -> Result<Body, AllocError>
    requires { at + length inside.now < 2 ^ 64 }
    ensures { IfOk result (λ body. body ≡ scan.body_of (spec.elements_from 0 at inside.now)) }
{
    let mut values = Vec::new(alloc);
    let mut universal = false;
    let mut at = at;
    let mut rest = inside;
    'elements: while !rest.is_empty() {
        let (element, length) = element_of(rest);
        match element {
            Element::Byte(value) => values.push(value)?,
            Element::Universal => universal = true,
            Element::Bad => return Ok(Body::Bad(at)),
        }
        at += length;
        rest = &rest[length..];
    }
    Ok(if universal {
        Body::Universal
    } else {
        Body::Values(Text::from_vec(values))
    })
}

/// A character constant by the values of its elements.
fn character_reading(values: &[u8]) -> Reading
    ensures { result ≡ spec.reading_of_character values.now }
{
    match values {
        [] => Reading::Bad(0),
        [value] => Reading::Token(TokenKind::Char(*value)),
        [_, _, ..] => Reading::LeftOut(Feature::MultiChar),
    }
}

/// What a literal is read as, by its elements.
fn body_reading(opening: Opening, body: Body) -> Reading
    ensures { result ≡ scan.reading_of_body opening body }
{
    match body {
        Body::Bad(at) => Reading::Bad(at),
        Body::Universal if opening.length > 1 => Reading::LeftOut(Feature::Wide),
        Body::Universal => Reading::LeftOut(Feature::UniversalName),
        Body::Values(_) if opening.length > 1 => Reading::LeftOut(Feature::Wide),
        Body::Values(values) if opening.quote == b'\'' => character_reading(values.as_slice()),
        Body::Values(values) => Reading::Token(TokenKind::Bytes(values)),
    }
}

/// A character constant by its value, or a string literal by the bytes of its elements.
pub fn literal_reading(alloc: Global, opening: Opening, text: &[u8]) -> Result<Reading, AllocError>
    requires { opening.length < length text.now }
    ensures { IfOk result (λ r. r ≡ spec.reading_of_opened text.now (Some opening)) }
{
    let inside = &text[opening.length..text.len() - 1];
    if opening.quote == b'\'' && inside.is_empty() {
        return Ok(Reading::Bad(0));
    }
    let body = body_of(alloc, opening.length, inside)?;
    Ok(body_reading(opening, body))
}
