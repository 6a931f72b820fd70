//! The types that words name (C11 6.7.2p2).
//! A row: the table of the words, by a sign, a kind and `int`.

ghost use Rattle.std.specs.Prelude.{◌≡◌};
ghost use Rattle.c_typing.specs.Declarators as spec;
ghost use Rattle.c_type_declarators.specs.Words as meant;

use c_tree::TypeWord;
use c_tree::typed::{Base, Sign};

/// A word that is not `int`, `signed` or `unsigned`: at most one of them names a type.
#[derive(Clone, Copy, PartialEq, Eq)]
enum Kind {
    Void,
    Bool,
    Char,
    Short,
    Long,
}

/// The words that stand together so far, in any order. None of them may stand twice.
#[derive(Clone, Copy, PartialEq, Eq)]
struct Words {
    sign: Option<Sign>,
    kind: Option<Kind>,
    int: bool,
}

/// The type that words name, in any order, or `None` exactly where they name none. The time is linear in their number.
pub fn named_by_words(list: &[TypeWord]) -> Option<Base>
    ensures { result ≡ spec.named_by_words list.now }
{
    base_of(read_words(list)?)
}

/// Words as a sign, a kind and `int`, or `None` where two of them do not go together.
fn read_words(list: &[TypeWord]) -> Option<Words>
    ensures { result ≡ meant.read_words meant.no_words list.now }
{
    let mut words = Words {
        sign: None,
        kind: None,
        int: false,
    };
    for word in list {
        words = with_word(words, *word)?;
    }
    Some(words)
}

/// One word more.
fn with_word(words: Words, word: TypeWord) -> Option<Words>
    ensures { result ≡ meant.with_word words word }
{
    match word {
        TypeWord::Void => with_kind(words, Kind::Void),
        TypeWord::Bool => with_kind(words, Kind::Bool),
        TypeWord::Char => with_kind(words, Kind::Char),
        TypeWord::Short => with_kind(words, Kind::Short),
        TypeWord::Long => with_kind(words, Kind::Long),
        TypeWord::Signed => with_sign(words, Sign::Signed),
        TypeWord::Unsigned => with_sign(words, Sign::Unsigned),
        TypeWord::Int => with_int(words),
    }
}

fn with_kind(words: Words, kind: Kind) -> Option<Words>
    ensures { result ≡ meant.with_kind words kind }
{
    match words.kind {
        None => Some(Words {
            kind: Some(kind),
            ..words
        }),
        Some(_) => None,
    }
}

fn with_sign(words: Words, sign: Sign) -> Option<Words>
    ensures { result ≡ meant.with_sign words sign }
{
    match words.sign {
        None => Some(Words {
            sign: Some(sign),
            ..words
        }),
        Some(_) => None,
    }
}

fn with_int(words: Words) -> Option<Words>
    ensures { result ≡ meant.with_int words }
{
    if words.int {
        return None;
    }
    Some(Words { int: true, ..words })
}

/// The type that such words name (C11 6.7.2p2).
fn base_of(words: Words) -> Option<Base>
    ensures { result ≡ meant.base_of words }
{
    match words.kind {
        None => int_of(words),
        Some(Kind::Void) => alone(words, Base::Void),
        Some(Kind::Bool) => alone(words, Base::Bool),
        Some(Kind::Char) => character_of(words),
        Some(Kind::Short) => Some(signed_or(words.sign, Base::Short, Base::UnsignedShort)),
        Some(Kind::Long) => Some(signed_or(words.sign, Base::Long, Base::UnsignedLong)),
    }
}

/// `int`, and `signed` or `unsigned` with or without it.
fn int_of(words: Words) -> Option<Base>
    ensures { result ≡ meant.int_of words }
{
    if words.sign.is_none() && !words.int {
        return None;
    }
    Some(signed_or(words.sign, Base::Int, Base::Unsigned))
}

/// A type beside whose word none stands.
fn alone(words: Words, base: Base) -> Option<Base>
    ensures { result ≡ meant.alone words base }
{
    if words.sign.is_some() || words.int {
        return None;
    }
    Some(base)
}

/// `char` is a type of its own beside `signed char` and `unsigned char` (C11 6.2.5p15).
fn character_of(words: Words) -> Option<Base>
    ensures { result ≡ meant.character_of words }
{
    if words.int {
        return None;
    }
    match words.sign {
        None => Some(Base::Char),
        Some(Sign::Signed) => Some(Base::SignedChar),
        Some(Sign::Unsigned) => Some(Base::UnsignedChar),
    }
}

/// The unsigned type where `unsigned` stands, else the signed one.
fn signed_or(sign: Option<Sign>, signed: Base, unsigned: Base) -> Base
    ensures { result ≡ meant.signed_or sign signed unsigned }
{
    match sign {
        Some(Sign::Unsigned) => unsigned,
        _ => signed,
    }
}
