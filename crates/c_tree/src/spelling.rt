//! The kinds of the tokens of a tree: a walk over it, which gives them one behind the other to a `Taker`.
//! Each function has one kind of tree.

mod declaration;
mod statement;
mod taker;
mod token;
mod tree;
mod unit;

pub use unit::{definition_tokens, spell};
