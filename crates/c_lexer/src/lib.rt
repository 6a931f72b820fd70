//! Cuts a C source into its tokens (C11 6.4), each with its place, or says where the source is refused.
//!
//! A source is white space, comments and marker lines of a preprocessor, and between these the
//! longest tokens: names and keywords, numbers, character constants, string literals and
//! punctuators. `specs/Tokens.antt` says this over whole lists of bytes; the functions here scan each
//! byte a few times and are proved to meet it.
#![tactic(auto)]

mod fault;
mod gap;
mod laws;
mod lexeme;
mod lexer;
mod literal;
mod name;
mod number;
mod place;
mod punctuator;
mod reading;

pub use fault::LexFault;
pub use laws::longest_is_longest;
pub use lexer::lex;
