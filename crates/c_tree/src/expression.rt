//! Expressions as trees (C11 6.5), with the place of each token.
//! A chain of operators of one level is one node with a list, so that long chains nest no deeper.

use crate::declarator::Declarator;
use crate::specifier::Specifier;
use crate::token::{IntKind, Pos, Punct};
use word_ops::{Boxed, Items, Text};

/// A name and its place.
#[derive(Drop)]
pub struct Identifier {
    pub text: Text,
    pub place: Pos,
}

/// A string literal and its place: the bytes of its elements, without the zero byte at its end.
#[derive(Drop)]
pub struct Literal {
    pub bytes: Text,
    pub place: Pos,
}

/// A punctuator and its place.
#[derive(Clone, Copy)]
pub struct Mark {
    pub punct: Punct,
    pub place: Pos,
}

/// The levels of binary operators, loosest first (C11 6.5.5 to 6.5.14).
#[derive(Clone, Copy)]
pub enum Level {
    /// `||`
    Or,
    /// `&&`
    And,
    /// `|`
    BitOr,
    /// `^`
    BitXor,
    /// `&`
    BitAnd,
    /// `==` and `!=`
    Equality,
    /// `<`, `>`, `<=` and `>=`
    Relation,
    /// `<<` and `>>`
    Shift,
    /// `+` and `-`
    Sum,
    /// `*`, `/` and `%`
    Product,
}

/// An expression (C11 6.5), with the place of each of its tokens.
///
/// Operators of one level in a row are one node: its first operand, and a list of each operator with
/// the operand after it. Such a list, a run of prefixes and a list of suffixes have at least one item;
/// an operand alone is its own tree. Parentheses are nodes.
#[cycle(tree)]
#[derive(Drop)]
pub enum Expr {
    /// An identifier (C11 6.5.1).
    Name(Identifier),
    /// An integer constant: its value and its type.
    Number(u32, IntKind, Pos),
    /// A character constant, by its value.
    Char(u8, Pos),
    /// One or more string literals side by side.
    Strings(Items<Literal>),
    /// `(` expression `)`
    Paren(Pos, Boxed<Expr>, Pos),
    /// An operand and the suffixes behind it (C11 6.5.2).
    Postfix(Boxed<Expr>, Items<Suffix>),
    /// `sizeof` `(` type name `)` (C11 6.5.3.4)
    SizeofType(Pos, Pos, Boxed<TypeName>, Pos),
    /// A run of prefixes and the operand behind it (C11 6.5.3, 6.5.4).
    Prefixed(Items<Prefix>, Boxed<Expr>),
    /// Operators of one level, read to the left (C11 6.5.5 to 6.5.14).
    Binary(Level, Boxed<Expr>, Items<Next>),
    /// `a ? b : c`, read to the right: the first condition, and what comes after each (C11 6.5.15).
    Conditional(Boxed<Expr>, Items<Branch>),
    /// Assignments, read to the right: the first target, and each operator with what stands behind it (C11 6.5.16).
    Assign(Boxed<Expr>, Items<Next>),
    /// Expressions with commas between (C11 6.5.17).
    Comma(Boxed<Expr>, Items<Next>),
}

/// What stands behind a postfix expression's operand (C11 6.5.2).
#[cycle(tree)]
#[derive(Drop)]
pub enum Suffix {
    /// `[` expression `]`
    Index(Pos, Expr, Pos),
    /// `(` `)`
    Call(Pos, Pos),
    /// `(` arguments `)`: the first argument, and each comma with the argument after it.
    CallWith(Pos, Expr, Items<Next>, Pos),
    /// `.` name
    Member(Pos, Identifier),
    /// `->` name
    Arrow(Pos, Identifier),
    /// `++`
    Increment(Pos),
    /// `--`
    Decrement(Pos),
}

/// What stands before a cast expression's operand (C11 6.5.3, 6.5.4).
#[cycle(tree)]
#[derive(Drop)]
pub enum Prefix {
    /// One of `&`, `*`, `+`, `-`, `~`, `!`, `++`, `--`.
    Operator(Mark),
    /// `sizeof`
    Sizeof(Pos),
    /// `(` type name `)`
    Cast(Pos, TypeName, Pos),
}

/// An operator or a comma, and the operand after it.
#[cycle(tree)]
#[derive(Drop)]
pub struct Next {
    pub operator: Mark,
    pub operand: Expr,
}

/// `?`, what is given where the condition before it holds, `:`, and the operand after it.
#[cycle(tree)]
#[derive(Drop)]
pub struct Branch {
    pub question: Pos,
    pub gives: Expr,
    pub colon: Pos,
    pub operand: Expr,
}

/// A type name (C11 6.7.7): specifiers, and a declarator without a name, which may be nothing.
#[cycle(tree)]
#[derive(Drop)]
pub struct TypeName {
    pub specifiers: Items<Specifier>,
    pub declarator: Declarator,
}
