//! What a call inside brackets is asked for, and what it gives.
//! One function value reads all that stands inside brackets, so what it reads is told by a value.

use c_tree::{Declarator, Expr, Specifiers};

/// How a declarator is used, which tells whether it has a name.
#[derive(Clone, Copy)]
pub enum Use {
    /// In a declaration, a member or a definition: with a name (C11 6.7.6).
    Declaring,
    /// In a type name: without one (C11 6.7.7).
    Abstract,
    /// In a parameter: with or without one; what can be a typedef name is no name of a parameter (C11 6.7.6.3p11).
    Parameter,
}

/// The production of an expression that begins a tree of its own.
#[derive(Clone, Copy)]
pub enum Within {
    /// An expression (C11 6.5.17).
    Comma,
    /// An assignment expression (C11 6.5.16).
    Assignment,
    /// A conditional expression (C11 6.5.15).
    Conditional,
}

/// What is to be read.
#[derive(Clone, Copy)]
pub enum Wanted {
    /// An expression of this production.
    Expression(Within),
    /// Specifiers, with storage words or without.
    Specifiers(bool),
    /// A declarator for this use, behind specifiers that name a type or do not.
    Declarator(Use, bool),
}

/// What was read.
#[derive(Drop)]
pub enum Found {
    Expression(Expr),
    Specifiers(Specifiers),
    Declarator(Declarator),
}
