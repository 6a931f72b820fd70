//! What a call is asked for that reads what is nested by one more, and what it gives.
//! One function value reads all of it, so what it reads is told by a value.

use c_tree::{BlockItem, Declaration, Initialiser, Stmt};

/// What is to be read.
#[derive(Clone, Copy)]
pub enum Wanted {
    /// An initialiser, in braces.
    Initialiser,
    /// A declaration, in the brackets of `for`.
    Declaration,
    /// An item of a block, where labels may stand or not.
    Item(bool),
    /// A body that is no block.
    Body,
}

/// What was read.
#[derive(Drop)]
pub enum Found {
    Initialiser(Initialiser),
    Declaration(Declaration),
    Item(BlockItem),
    Body(Stmt),
}
