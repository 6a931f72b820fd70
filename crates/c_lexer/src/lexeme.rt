//! The longest token in front of some bytes (C11 6.4p4), with its form and its length.
//! What the token then is read as is in `reading.rt`.

ghost use Rattle.std.specs.Prelude.{◌≡◌, ◌≤◌, ◌<◌, length, IfOk, IfSome};
ghost use Rattle.c_lexer.specs.Scan as scan;
ghost use Rattle.c_lexer.specs.WhiteSpace.{opens_comment};

use crate::literal::{Opening, closing_len, literal_reading, opening_of};
use crate::name::{is_letter, word_len};
use crate::number::{begins_number, number_len, number_reading};
use crate::punctuator::punctuator;
use crate::reading::{Reading, mark_reading, word_reading};
use c_tree::Punct;
use std::alloc::{AllocError, Global};

/// The form of a token, with what was seen on the way to its end.
#[derive(Clone, Copy)]
pub enum Form {
    Word,
    Number,
    Literal(Opening),
    Punctuator(Punct),
}

/// A literal behind its opening, if it ends.
fn literal_lexeme(opening: Opening, bytes: &[u8]) -> Option<(Form, usize)>
    requires { opening.length ≤ length bytes.now }
    ensures value { result ≡ scan.literal_lexeme opening bytes.now }
    ensures within { IfSome result (λ found. (opening.length < found.1) × (found.1 ≤ length bytes.now)) }
{
    let length = closing_len(opening.quote, &bytes[opening.length..])?;
    Some((Form::Literal(opening), opening.length + length))
}

/// A number, which begins in front.
fn number_lexeme(bytes: &[u8]) -> (Form, usize)
    requires { 0 < length bytes.now }
    ensures value { result ≡ scan.number_lexeme bytes.now }
    ensures within { (1 ≤ result.1) × (result.1 ≤ length bytes.now) }
{
    (Form::Number, 1 + number_len(bytes[0], &bytes[1..]))
}

/// The longest token in front and its form, if one begins there.
#[tactic(auto, unfolding(crate::specs::Scan::lexeme))]
pub fn lexeme(bytes: &[u8]) -> Option<(Form, usize)>
    ensures value { result ≡ scan.lexeme bytes.now }
    ensures within { IfSome result (λ found. (1 ≤ found.1) × (found.1 ≤ length bytes.now)) }
    ensures suits { IfSome result (λ found. scan.Suits found.0 found.1) }
{
    if let Some(opening) = opening_of(bytes) {
        return literal_lexeme(opening, bytes);
    }
    if begins_number(bytes) {
        return Some(number_lexeme(bytes));
    }
    match bytes {
        [b'/', b'*', ..] => None,
        [first, ..] if is_letter(*first) => Some((Form::Word, word_len(bytes))),
        _ => match punctuator(bytes) {
            Some((mark, length)) => Some((Form::Punctuator(mark), length)),
            None => None,
        },
    }
}

/// What the bytes of a token are read as, by its form.
pub fn reading_as(alloc: Global, form: Form, text: &[u8]) -> Result<Reading, AllocError>
    requires { scan.Suits form (length text.now) }
    ensures { IfOk result (λ r. r ≡ scan.reading_as form text.now) }
{
    match form {
        Form::Word => word_reading(alloc, text),
        Form::Number => Ok(number_reading(text)),
        Form::Literal(opening) => literal_reading(alloc, opening, text),
        Form::Punctuator(mark) => Ok(mark_reading(mark)),
    }
}
