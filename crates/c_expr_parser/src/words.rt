//! What the kinds of tokens stand for.
//! Tests of one token, and the specifiers that keywords are.

ghost use Rattle.std.specs.Prelude.{◌≡◌};
ghost use Rattle.std.specs.Option.{option_copied};
ghost use Rattle.c_tree.specs.Levels.Facts.{kind_of_mark};
ghost use Rattle.c_grammar.specs.Input as input;
ghost use Rattle.c_grammar.specs.Punctuators.{same_mark};
ghost use Rattle.c_grammar.specs.Read.Inner as inner;
ghost use Rattle.c_grammar.specs.Read.Expressions as expressions;

use c_tree::{Keyword, Punct, Storage, TokenKind, TypeWord};

/// Whether two punctuators are one.
pub fn is_same(one: Punct, other: Punct) -> bool
    ensures { result ≡ same_mark one other }
{
    one as u8 == other as u8
}

/// Whether the token is this punctuator.
pub fn is_mark(kind: Option<&TokenKind>, op: Punct) -> bool
    ensures { result ≡ input.is_mark op (option_copied kind.entry) }
{
    match kind {
        Some(TokenKind::Punct(other)) => is_same(*other, op),
        _ => false,
    }
}

/// Whether the token is a name.
pub fn is_name(kind: Option<&TokenKind>) -> bool
    ensures { result ≡ input.is_name (option_copied kind.entry) }
{
    matches!(kind, Some(TokenKind::Name(_)))
}

/// Whether the token is a string literal.
pub fn is_bytes(kind: Option<&TokenKind>) -> bool
    ensures { result ≡ input.is_bytes (option_copied kind.entry) }
{
    matches!(kind, Some(TokenKind::Bytes(_)))
}

/// Whether the token is `sizeof`.
pub fn is_sizeof(kind: Option<&TokenKind>) -> bool
    ensures { result ≡ inner.is_sizeof (option_copied kind.entry) }
{
    matches!(kind, Some(TokenKind::Keyword(Keyword::Sizeof)))
}

/// Whether the token is `const`.
pub fn is_const(kind: Option<&TokenKind>) -> bool
    ensures { result ≡ inner.is_const (option_copied kind.entry) }
{
    matches!(kind, Some(TokenKind::Keyword(Keyword::Const)))
}

/// Whether the token is `struct`.
pub fn is_struct(kind: Option<&TokenKind>) -> bool
    ensures { result ≡ inner.is_struct (option_copied kind.entry) }
{
    matches!(kind, Some(TokenKind::Keyword(Keyword::Struct)))
}

/// Whether the token is `enum`.
pub fn is_enum(kind: Option<&TokenKind>) -> bool
    ensures { result ≡ inner.is_enum (option_copied kind.entry) }
{
    matches!(kind, Some(TokenKind::Keyword(Keyword::Enum)))
}

/// Whether the token is `void`.
pub fn is_void(kind: Option<&TokenKind>) -> bool
    ensures { result ≡ inner.is_void (option_copied kind.entry) }
{
    matches!(kind, Some(TokenKind::Keyword(Keyword::Void)))
}

/// Whether the punctuator is a prefix: one of `&`, `*`, `+`, `-`, `~`, `!`, `++`, `--` (C11 6.5.3).
pub fn is_prefix(op: Punct) -> bool
    ensures { result ≡ expressions.is_prefix_mark (kind_of_mark op) }
{
    match op {
        Punct::Ampersand
        | Punct::Star
        | Punct::Plus
        | Punct::Minus
        | Punct::Tilde
        | Punct::Not
        | Punct::Increment
        | Punct::Decrement => true,
        _ => false,
    }
}

/// Whether the token is a punctuator that is a prefix.
pub fn begins_mark(kind: Option<&TokenKind>) -> bool
    ensures { result ≡ expressions.begins_mark (option_copied kind.entry) }
{
    match kind {
        Some(TokenKind::Punct(op)) => is_prefix(*op),
        _ => false,
    }
}

/// The storage class of a word (C11 6.7.1).
pub fn storage_of(word: Keyword) -> Option<Storage>
    ensures { result ≡ inner.storage_of word }
{
    match word {
        Keyword::Typedef => Some(Storage::Typedef),
        Keyword::Extern => Some(Storage::Extern),
        Keyword::Static => Some(Storage::Static),
        Keyword::Auto => Some(Storage::Auto),
        Keyword::Register => Some(Storage::Register),
        _ => None,
    }
}

/// The word that names a type (C11 6.7.2).
pub fn type_of(word: Keyword) -> Option<TypeWord>
    ensures { result ≡ inner.type_of word }
{
    match word {
        Keyword::Void => Some(TypeWord::Void),
        Keyword::Char => Some(TypeWord::Char),
        Keyword::Short => Some(TypeWord::Short),
        Keyword::Int => Some(TypeWord::Int),
        Keyword::Long => Some(TypeWord::Long),
        Keyword::Signed => Some(TypeWord::Signed),
        Keyword::Unsigned => Some(TypeWord::Unsigned),
        Keyword::Bool => Some(TypeWord::Bool),
        _ => None,
    }
}

/// Whether the word is a specifier or begins one, with storage words or without.
pub fn word_begins(with_storage: bool, word: Keyword) -> bool
    ensures { result ≡ inner.word_begins with_storage word }
{
    match word {
        Keyword::Const | Keyword::Struct | Keyword::Enum => true,
        _ => type_of(word).is_some() || (with_storage && storage_of(word).is_some()),
    }
}
