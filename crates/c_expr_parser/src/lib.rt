//! Reads the expressions, the specifiers and the declarators of a C source from its tokens (C11 6.5, 6.7).
//!
//! Each production is a method of `Grammar` over a cursor. What stands inside brackets is read by a function value that
//! the grammar holds, so that no production leads back to itself; the one recursive function, `inside`, makes the
//! grammar of the brackets that may still be opened and hands itself to it. Brackets may be open 256 deep.
#![tactic(auto)]

/// What was read; a refusal is given on, and what was kept till then is let go of by name.
///
/// `?` says the same, but the proof that it lets go of each value that is there takes long.
#[macro_export]
macro_rules! or_drop {
    ($read:expr, $($kept:ident),+) => {
        match $read {
            Ok(found) => found,
            Err(refusal) => {
                $(drop($kept);)+
                return Err(refusal);
            }
        }
    };
}

mod calls;
mod cursor;
mod declarators;
mod fault;
mod grammar;
mod inside;
mod memory;
mod nodes;
mod operands;
mod operators;
mod production;
mod specifier;
mod wanted;
mod words;

pub use calls::{DEEPEST, Names, assignment, conditional, declarator, expression, specifiers};
pub use fault::ParseFault;
pub use memory::{alone, copied, pushed};
pub use nodes::{declared_name, have_typedef, name_type};
pub use wanted::Use;
pub use words::{is_mark, word_begins};
