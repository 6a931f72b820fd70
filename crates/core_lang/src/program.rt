//! Functions, static objects and programs of core code. How a program runs stands in `specs/Run`, and when it
//! is well formed in `specs/WellFormed`.

use crate::act::Core;
use word_ops::Items;

/// What stands in a static object as the program begins.
#[derive(Clone, Copy, Debug, PartialEq, Eq, Hash)]
pub enum Start {
    /// a byte
    Byte(u8),
    /// the address of a place in a static object: the number of the object, and the offset in bytes
    Address(u32, u32),
}

/// A part of a static object that does not begin as zero.
#[derive(Clone, Copy, Debug, PartialEq, Eq, Hash)]
pub struct Part {
    /// where in the object it begins, in bytes
    pub offset: u32,
    /// what stands there: one byte, or the four of an address
    pub word: Start,
}

/// An object that lives as long as the program (C11 6.2.4p3).
#[derive(Debug, Drop)]
pub struct StaticObject {
    /// how many bytes it has
    pub size: u32,
    /// whether it may not be modified
    pub constant: bool,
    /// what does not begin as zero
    pub parts: Items<Part>,
}

/// A function in core form.
///
/// The numbers below `vars` are variables, the parameters first; the next `temps` numbers are
/// temporaries, each of which one act assigns.
#[derive(Debug, Drop)]
pub struct CoreFunction {
    /// how many parameters it has
    pub params: u32,
    /// how many variables, the parameters among them
    pub vars: u32,
    /// how many temporaries
    pub temps: u32,
    /// the local objects by their sizes in bytes
    pub locals: Items<u32>,
    /// what it does
    pub body: Items<Core>,
    /// whether it gives a value back
    pub returns: bool,
    /// the size of the source's function, by which limits are counted
    pub size: u128,
    /// the bytes that the source's function takes for objects, by which limits are counted
    pub object_bytes: u64,
}

/// A program in core form.
#[derive(Debug, Drop)]
pub struct Program {
    /// the functions by their numbers
    pub functions: Items<CoreFunction>,
    /// the static objects by their numbers
    pub objects: Items<StaticObject>,
    /// the number of the function that runs first
    pub main: u32,
}
