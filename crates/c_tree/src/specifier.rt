//! Specifiers as trees (C11 6.7.1 to 6.7.4): storage words, type words, qualifiers, structures and enumerations.
//! Each keeps its place.

use crate::declarator::Declarator;
use crate::expression::{Expr, Identifier};
use crate::token::Pos;
use word_ops::Items;

/// The storage class specifiers (C11 6.7.1).
#[derive(Clone, Copy)]
pub enum Storage {
    /// `typedef`
    Typedef,
    /// `extern`
    Extern,
    /// `static`
    Static,
    /// `auto`
    Auto,
    /// `register`
    Register,
}

/// The words that name a type (C11 6.7.2).
#[derive(Clone, Copy)]
pub enum TypeWord {
    /// `void`
    Void,
    /// `char`
    Char,
    /// `short`
    Short,
    /// `int`
    Int,
    /// `long`
    Long,
    /// `signed`
    Signed,
    /// `unsigned`
    Unsigned,
    /// `_Bool`
    Bool,
}

/// The specifiers of a declaration, in order; there is at least one (C11 6.7).
pub type Specifiers = Items<Specifier>;

/// A specifier of a declaration (C11 6.7), with the place of each of its tokens.
#[cycle(tree)]
#[derive(Drop)]
pub enum Specifier {
    /// A storage class word.
    Storage(Storage, Pos),
    /// `const`
    Const(Pos),
    /// A word that names a type.
    Word(TypeWord, Pos),
    /// `struct` name
    StructTag(Pos, Identifier),
    /// `struct`, a name where one stands, `{` members `}` (C11 6.7.2.1)
    Struct {
        word: Pos,
        tag: Option<Identifier>,
        opening: Pos,
        members: Items<Member>,
        closing: Pos,
    },
    /// `enum` name
    EnumTag(Pos, Identifier),
    /// `enum`, a name where one stands, `{` enumerators, a last comma where one stands, `}` (C11 6.7.2.2)
    Enum {
        word: Pos,
        tag: Option<Identifier>,
        opening: Pos,
        enumerators: Items<Enumerator>,
        comma: Option<Pos>,
        closing: Pos,
    },
    /// A typedef name (C11 6.7.8).
    TypedefName(Identifier),
}

/// A declaration of members (C11 6.7.2.1): specifiers, declarators, `;`.
#[cycle(tree)]
#[derive(Drop)]
pub struct Member {
    pub specifiers: Items<Specifier>,
    pub declarators: Items<MemberDeclarator>,
    pub semicolon: Pos,
}

/// A member's declarator, and the comma before each but the first.
#[cycle(tree)]
#[derive(Drop)]
pub struct MemberDeclarator {
    pub comma: Option<Pos>,
    pub declarator: Declarator,
}

/// An enumerator (C11 6.7.2.2), and the comma before each but the first.
#[cycle(tree)]
#[derive(Drop)]
pub enum Enumerator {
    /// A name alone.
    Plain(Option<Pos>, Identifier),
    /// A name, `=` and its value.
    Valued(Option<Pos>, Identifier, Pos, Expr),
}
