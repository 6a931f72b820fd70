//! The parts of an initialiser (C11 6.7.9p17): which part of an object each expression or string fills.
//! Values that typing gives on its way; no walk stands here.

use crate::operand::Operand;
use c_tree::Pos;
use c_tree::typed::CType;
use word_ops::{Items, Text};

/// One part of an object and what initialises it (C11 6.7.9p17).
#[derive(Drop)]
pub enum Leaf {
    /// an expression
    Given {
        /// where the part lies, in bytes from the start of the whole
        offset: u32,
        /// the type of the part
        ctype: CType,
        /// the first token of the expression
        first: Pos,
        /// what it is, where no fault stands in it
        value: Option<Operand>,
    },
    /// bytes of a string, so many bytes from the start of the whole
    Text(u32, Text),
    /// an expression that does not fit, of which a fault is told: its first token, and what it is
    Unfit(Pos, Operand),
    /// nothing that is right
    Wrong,
}

/// The parts of an object that are initialised.
#[derive(Drop)]
pub struct Filled {
    /// the parts, in order
    pub leaves: Items<Leaf>,
    /// of an array the number of elements up to the last of them
    pub count: u64,
}

/// An aggregate that is being filled.
#[derive(Drop)]
pub struct Frame {
    /// its type
    pub ctype: CType,
    /// where it begins
    pub offset: u32,
    /// how many of its parts were passed
    pub passed: u64,
}

/// A part of an aggregate.
#[derive(Drop)]
pub struct Piece {
    /// where it begins, in bytes from the start of the whole
    pub offset: u32,
    /// its type
    pub ctype: CType,
}

/// A place in a static object (C11 6.6p9).
#[derive(Clone, Copy, PartialEq, Eq)]
pub struct Address {
    /// the number of the object in the unit
    pub object: u32,
    /// how many bytes from its start
    pub offset: u32,
}
