//! Punctuators (C11 6.4.6; the profile leaves digraphs out): the longest one in front.
//! One table for each length.

ghost use Rattle.std.specs.Prelude.{◌≡◌, ◌≤◌, ◌∷◌, [], length, IfSome};
ghost use Rattle.c_lexer.specs.Scan as scan;
ghost use Rattle.c_lexer.specs.Punctuators as spec;

use c_tree::Punct;

/// The punctuator of one byte.
#[tactic(auto, unfolding(crate::specs::Punctuators::punctuator_of))]
fn single(byte: u8) -> Option<Punct>
    ensures { result ≡ spec.punctuator_of (byte ∷ []) }
{
    match byte {
        b'[' => Some(Punct::LeftBracket),
        b']' => Some(Punct::RightBracket),
        b'(' => Some(Punct::LeftParen),
        b')' => Some(Punct::RightParen),
        b'{' => Some(Punct::LeftBrace),
        b'}' => Some(Punct::RightBrace),
        b'.' => Some(Punct::Dot),
        b'&' => Some(Punct::Ampersand),
        b'*' => Some(Punct::Star),
        b'+' => Some(Punct::Plus),
        b'-' => Some(Punct::Minus),
        b'~' => Some(Punct::Tilde),
        b'!' => Some(Punct::Not),
        b'/' => Some(Punct::Slash),
        b'%' => Some(Punct::Percent),
        b'<' => Some(Punct::Less),
        b'>' => Some(Punct::Greater),
        b'^' => Some(Punct::Caret),
        b'|' => Some(Punct::Bar),
        b'?' => Some(Punct::Question),
        b':' => Some(Punct::Colon),
        b';' => Some(Punct::Semicolon),
        b'=' => Some(Punct::Assign),
        b',' => Some(Punct::Comma),
        _ => None,
    }
}

/// The punctuator of two bytes.
#[tactic(auto, unfolding(crate::specs::Punctuators::punctuator_of))]
fn double(first: u8, second: u8) -> Option<Punct>
    ensures { result ≡ spec.punctuator_of (first ∷ second ∷ []) }
{
    match (first, second) {
        (b'-', b'>') => Some(Punct::Arrow),
        (b'+', b'+') => Some(Punct::Increment),
        (b'-', b'-') => Some(Punct::Decrement),
        (b'<', b'<') => Some(Punct::ShiftLeft),
        (b'>', b'>') => Some(Punct::ShiftRight),
        (b'<', b'=') => Some(Punct::LessEqual),
        (b'>', b'=') => Some(Punct::GreaterEqual),
        (b'=', b'=') => Some(Punct::Equal),
        (b'!', b'=') => Some(Punct::NotEqual),
        (b'&', b'&') => Some(Punct::AndAnd),
        (b'|', b'|') => Some(Punct::OrOr),
        (b'*', b'=') => Some(Punct::StarAssign),
        (b'/', b'=') => Some(Punct::SlashAssign),
        (b'%', b'=') => Some(Punct::PercentAssign),
        (b'+', b'=') => Some(Punct::PlusAssign),
        (b'-', b'=') => Some(Punct::MinusAssign),
        (b'&', b'=') => Some(Punct::AmpersandAssign),
        (b'^', b'=') => Some(Punct::CaretAssign),
        (b'|', b'=') => Some(Punct::BarAssign),
        _ => None,
    }
}

/// The punctuator of three bytes.
#[tactic(auto, unfolding(crate::specs::Punctuators::punctuator_of))]
fn triple(first: u8, second: u8, third: u8) -> Option<Punct>
    ensures { result ≡ spec.punctuator_of (first ∷ second ∷ third ∷ []) }
{
    match (first, second, third) {
        (b'.', b'.', b'.') => Some(Punct::Ellipsis),
        (b'<', b'<', b'=') => Some(Punct::ShiftLeftAssign),
        (b'>', b'>', b'=') => Some(Punct::ShiftRightAssign),
        _ => None,
    }
}

/// The longest punctuator in front, and its length.
#[tactic(auto, unfolding(crate::specs::Scan::punctuator_in))]
pub fn punctuator(bytes: &[u8]) -> Option<(Punct, usize)>
    ensures value { result ≡ scan.punctuator_in bytes.now }
    ensures within { IfSome result (λ found. (1 ≤ found.1) × (found.1 ≤ length bytes.now)) }
{
    if let [a, b, c, ..] = bytes
        && let Some(mark) = triple(*a, *b, *c)
    {
        return Some((mark, 3));
    }
    if let [a, b, ..] = bytes
        && let Some(mark) = double(*a, *b)
    {
        return Some((mark, 2));
    }
    if let [a, ..] = bytes
        && let Some(mark) = single(*a)
    {
        return Some((mark, 1));
    }
    None
}
