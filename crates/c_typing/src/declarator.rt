//! What a declarator declares (C11 6.7.6): its name, its type and its parameters.
//! Values that typing gives on its way; no walk stands here.

use c_tree::typed::CType;
use c_tree::{Identifier, Pos, Storage};
use word_ops::Items;

/// A parameter (C11 6.7.6.3).
#[derive(Drop)]
pub struct Parameter {
    /// its name
    pub name: Option<Identifier>,
    /// the first token of its specifiers
    pub first: Pos,
    /// its type as adjusted
    pub ctype: CType,
    /// whether it is `register`
    pub in_register: bool,
}

/// One derivation of a declarator (C11 6.7.6).
#[derive(Drop)]
pub enum Part {
    /// a pointer, and whether it is `const`
    Pointing(bool),
    /// an array, with the number of elements where that is told
    Arraying(Option<u64>),
    /// an array in whose number of elements a fault stands
    SomeArray,
    /// a function of these parameters
    Listing(Items<Parameter>),
    /// a function in whose parameters a fault stands
    SomeFunction,
}

/// Specifiers as a whole (C11 6.7).
#[derive(Drop)]
pub struct Basis {
    /// the storage word among them
    pub storage: Option<Storage>,
    /// the type that they name
    pub ctype: CType,
}
