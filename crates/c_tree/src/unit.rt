//! A source as one tree (C11 6.9): its external declarations and function definitions.
//! The parser of units gives it.

use crate::declaration::Declaration;
use crate::declarator::Declarator;
use crate::specifier::Specifier;
use crate::statement::Block;
use crate::token::Pos;
use word_ops::Items;

/// A function definition (C11 6.9.1): specifiers, a declarator and the body.
#[derive(Drop)]
pub struct Definition {
    pub specifiers: Items<Specifier>,
    pub declarator: Declarator,
    pub body: Block,
}

/// An external declaration (C11 6.9).
#[derive(Drop)]
pub enum External {
    /// A declaration.
    Declaration(Declaration),
    /// A function definition.
    Definition(Definition),
}

/// A translation unit (C11 6.9), and the place just past the last byte of its source.
#[derive(Drop)]
pub struct Unit {
    pub items: Items<External>,
    pub end: Pos,
}
