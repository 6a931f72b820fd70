//! What the bytes of a token are read as: a token of the profile, one of a feature that the profile leaves out, or none.
//! Words, numbers and literals go to the files that read them.

ghost use Rattle.std.specs.Prelude.{◌≡◌, IfOk};
ghost use Rattle.c_lexer.specs.Features.{feature_of_keyword};
ghost use Rattle.c_lexer.specs.Lexemes as spec;
ghost use Rattle.c_lexer.specs.Names.{keyword_of};

use crate::name::keyword;
use c_tree::{Feature, Keyword, Punct, TokenKind};
use std::alloc::{AllocError, Global};
use word_ops::Text;

/// What the bytes of a token are read as.
#[derive(Drop)]
pub enum Reading {
    /// A token of the profile.
    Token(TokenKind),
    /// A token of a feature that the profile leaves out.
    LeftOut(Feature),
    /// No token; what is wrong stands so many bytes behind the first.
    Bad(usize),
}

/// The feature that a keyword belongs to, where the profile leaves it out.
fn feature_of(word: Keyword) -> Option<Feature>
    ensures { result ≡ feature_of_keyword word }
{
    match word {
        Keyword::Float | Keyword::Double => Some(Feature::Float),
        Keyword::Complex | Keyword::Imaginary => Some(Feature::Complex),
        Keyword::Atomic => Some(Feature::Atomic),
        Keyword::ThreadLocal => Some(Feature::ThreadLocal),
        Keyword::Volatile => Some(Feature::Volatile),
        Keyword::Restrict => Some(Feature::Restrict),
        Keyword::Inline => Some(Feature::Inline),
        Keyword::NoReturn => Some(Feature::NoReturn),
        Keyword::AlignAs => Some(Feature::AlignAs),
        Keyword::AlignOf => Some(Feature::AlignOf),
        Keyword::Generic => Some(Feature::Generic),
        Keyword::StaticAssert => Some(Feature::StaticAssert),
        Keyword::Union => Some(Feature::Union),
        Keyword::Goto => Some(Feature::Goto),
        _ => None,
    }
}

/// A keyword, or else a name.
pub fn word_reading(alloc: Global, text: &[u8]) -> Result<Reading, AllocError>
    ensures { IfOk result (λ r. r ≡ spec.reading_of_word text.now (keyword_of text.now)) }
{
    match keyword(text) {
        Some(word) => Ok(match feature_of(word) {
            Some(feature) => Reading::LeftOut(feature),
            None => Reading::Token(TokenKind::Keyword(word)),
        }),
        None => {
            let name = Text::from_vec(Vec::from_slice(alloc, text)?);
            Ok(Reading::Token(TokenKind::Name(name)))
        }
    }
}

pub fn mark_reading(mark: Punct) -> Reading
    ensures { result ≡ spec.reading_of_mark mark }
{
    match mark {
        Punct::Ellipsis => Reading::LeftOut(Feature::Variadic),
        _ => Reading::Token(TokenKind::Punct(mark)),
    }
}
