//! The walk over expressions, specifiers and declarators, which lead to each other (C11 6.5, 6.7).
//!
//! Each function takes one tree and does what the definition of typing makes of it: `c_typing`'s `Trees` has an equation for each
//! kind of node. The rows of the crates below say what each operator, specifier and derivation asks of its parts; here stands the
//! order in which the parts are walked, and in which scope. The functions over trees are methods of `Walker`: what stands inside a
//! tree is walked over by a function value that the walker holds, so that none of them leads back to itself; the one recursive
//! function, `inside`, makes the walker of the trees that may still stand inside one another and hands itself to it. `names` has
//! what is known of a tree without typing it, and `operands`, `sequences` and `types` what is done with what the walk of a part gave.
#![tactic(auto)]

/// What a call gave; where memory was wanting, what was kept till then is let go of by name.
///
/// `?` says the same, but the proof that it lets go of each value that is there takes long.
macro_rules! or_drop {
    ($given:expr, $($kept:ident),+) => {
        match $given {
            Ok(given) => given,
            Err(_) => {
                $(drop($kept);)+
                return Err(word_ops::Memory);
            }
        }
    };
}

/// What is there; where it is not, there is nothing, and what was kept is let go of by name, for the same reason.
macro_rules! some_or_drop {
    ($given:expr, $($kept:ident),+) => {
        match $given {
            Some(given) => given,
            None => {
                $(drop($kept);)+
                return Ok(None);
            }
        }
    };
}

mod calls;
mod declarators;
mod expressions;
mod held;
mod inside;
mod members;
mod names;
mod nested;
mod operands;
mod operators;
mod parameters;
mod prefixes;
mod sequences;
mod specifying;
mod suffixes;
mod types;
mod walker;

pub use calls::{declared_type, expr, parts, specifiers};
pub use names::{first_specifier, first_token, literal, makes, name};
