//! Reads the tokens of a C source as a translation unit (C11 6.7 to 6.9).
//!
//! Expressions, specifiers and declarators are read by `c_expr_parser`. Each further production is a method of `Grammar`
//! over a cursor. What is nested by one more (what stands in a brace, and a body that is no block) is read by a function
//! value that the grammar holds, so that no production leads back to itself; the one recursive function, `inside`, makes
//! the grammar of what may still be nested and hands itself to it. Tokens nest 256 deep at most.
#![tactic(auto)]

mod block;
mod calls;
mod cursor;
mod declaration;
mod declares;
mod grammar;
mod initialiser;
mod inside;
mod memory;
mod nodes;
mod statement;
mod unit;
mod wanted;
mod words;

pub use c_expr_parser::ParseFault;
pub use calls::parse;
