//! What is asked of a tree that stands inside another, and what is given.
//! The types of the one function value by which all walks of this crate go into a tree.

use c_tree::{Declarator, Expr, Specifier};
use c_typing::{Basis, Operand, Part};
use word_ops::{Boxed, Items};

/// A tree that stands inside another.
#[derive(Clone, Copy)]
pub(crate) enum Tree<'a> {
    /// an expression
    Expression(&'a Expr),
    /// specifiers, and whether they stand alone, without a declarator behind them
    Specifiers(bool, &'a [Specifier]),
    /// a declarator, and whether it is that of a definition
    Declarator(bool, &'a Declarator),
}

/// What typing makes of it, or nothing where a fault stands in it.
#[derive(Drop)]
pub(crate) enum Typed {
    /// what an expression is
    Operand(Option<Boxed<Operand>>),
    /// what specifiers are as a whole
    Basis(Option<Basis>),
    /// the derivations of a declarator
    Parts(Option<Items<Part>>),
}
