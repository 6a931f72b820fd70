//! Terms by their numbers, and how the word of a term comes about: a constant, a root, an operation, a load or a
//! phi.

use word_ops::{Op, Width};

/// A term, by its number.
#[derive(Clone, Copy, Debug, PartialEq, Eq, Hash)]
pub struct Term(pub u32);

/// Where a word comes from that no term before it gives.
#[derive(Clone, Copy, Debug, PartialEq, Eq, Hash)]
pub enum Root {
    /// the address of the static object of this number
    Global(u32),
    /// the address of the local object of this number
    Local(u32),
    /// the argument of this position, counted from 0
    Param(u32),
    /// what a read of one input byte gives: 0 to 255, or -1 at the end of the input
    Got,
    /// the value that a call gives back
    Called,
}

/// How a term's word comes about.
#[derive(Clone, Copy, Debug, PartialEq, Eq, Hash)]
pub enum Node {
    /// this word
    Konst(u32),
    /// a word from outside the terms
    Root(Root),
    /// the operation on the words of two terms; one with a single operand ignores the second
    Operate(Op, Term, Term),
    /// what a load of this width gives at the address of the term
    Load(Width, Term),
    /// the word of the argument of the edge by which its block is entered
    Phi,
}
