//! Declarators, parameters and type names as trees (C11 6.7.6, 6.7.7), with the place of each token.
//! They are read inside out: pointers in front, arrays and parameters behind.

use crate::expression::{Expr, Identifier};
use crate::specifier::Specifier;
use crate::token::Pos;
use word_ops::{Boxed, Items};

/// `*` and the places of the `const` words behind it (C11 6.7.6.1).
#[derive(Drop)]
pub struct Pointer {
    pub star: Pos,
    pub constants: Items<Pos>,
}

/// A declarator (C11 6.7.6, 6.7.7), with the place of each of its tokens: pointers, what is declared,
/// and the arrays and parameter lists behind it.
#[cycle(tree)]
#[derive(Drop)]
pub struct Declarator {
    pub pointers: Items<Pointer>,
    pub direct: Direct,
    pub suffixes: Items<DeclaratorSuffix>,
}

/// What stands in the middle of a declarator.
#[cycle(tree)]
#[derive(Drop)]
pub enum Direct {
    /// No name, as in a type name.
    Nothing,
    /// The name that is declared.
    Named(Identifier),
    /// `(` declarator `)`
    Grouped(Pos, Boxed<Declarator>, Pos),
}

/// What stands behind the middle of a declarator (C11 6.7.6.2, 6.7.6.3).
#[cycle(tree)]
#[derive(Drop)]
pub enum DeclaratorSuffix {
    /// `[` `]`
    Array(Pos, Pos),
    /// `[` size `]`
    ArrayOf(Pos, Expr, Pos),
    /// `(` `)`
    Empty(Pos, Pos),
    /// `(` `void` `)`
    Void(Pos, Pos, Pos),
    /// `(` parameters `)`
    Parameters(Pos, Items<Parameter>, Pos),
}

/// A parameter (C11 6.7.6.3): specifiers and a declarator with or without a name, and the comma
/// before each but the first.
#[cycle(tree)]
#[derive(Drop)]
pub struct Parameter {
    pub comma: Option<Pos>,
    pub specifiers: Items<Specifier>,
    pub declarator: Declarator,
}
