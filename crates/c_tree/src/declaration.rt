//! Declarations and initialisers as trees (C11 6.7, 6.7.9), with the place of each token.
//! Rows of tokens alone: what they mean is in typing.

use crate::declarator::Declarator;
use crate::expression::Expr;
use crate::specifier::Specifier;
use crate::token::Pos;
use word_ops::Items;

/// An initialiser (C11 6.7.9), with the place of each of its tokens.
#[cycle(initialiser)]
#[derive(Drop)]
pub enum Initialiser {
    /// An assignment expression.
    Expression(Expr),
    /// `{` initialisers, a last comma where one stands, `}`
    List {
        opening: Pos,
        items: Items<InitialiserItem>,
        comma: Option<Pos>,
        closing: Pos,
    },
}

/// An initialiser in braces, and the comma before each but the first.
#[cycle(initialiser)]
#[derive(Drop)]
pub struct InitialiserItem {
    pub comma: Option<Pos>,
    pub value: Initialiser,
}

/// `=` and an initialiser.
#[derive(Drop)]
pub struct Start {
    pub equals: Pos,
    pub value: Initialiser,
}

/// A declarator, its initialiser where one stands, and the comma before each but the first.
#[derive(Drop)]
pub struct InitDeclarator {
    pub comma: Option<Pos>,
    pub declarator: Declarator,
    pub start: Option<Start>,
}

/// A declaration (C11 6.7): specifiers, declarators with their initialisers, `;`.
#[derive(Drop)]
pub struct Declaration {
    pub specifiers: Items<Specifier>,
    pub declarators: Items<InitDeclarator>,
    pub semicolon: Pos,
}
