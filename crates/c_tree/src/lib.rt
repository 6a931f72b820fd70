//! The tokens and the syntax trees of a C source, and why a source is refused.
#![tactic(auto)]

mod declaration;
mod declarator;
mod expression;
mod refusal;
mod specifier;
mod spelling;
mod statement;
mod token;
pub mod typed;
mod unit;

pub use declaration::{Declaration, InitDeclarator, Initialiser, InitialiserItem, Start};
pub use declarator::{Declarator, DeclaratorSuffix, Direct, Parameter, Pointer};
pub use expression::{
    Branch, Expr, Identifier, Level, Literal, Mark, Next, Prefix, Suffix, TypeName,
};
pub use refusal::{FaultKind, Feature, Refusal};
pub use specifier::{
    Enumerator, Member, MemberDeclarator, Specifier, Specifiers, Storage, TypeWord,
};
pub use spelling::{definition_tokens, spell};
pub use statement::{Block, BlockItem, Condition, Else, ForControl, ForHead, IfHead, Stmt};
pub use token::{IntKind, Keyword, Pos, Punct, Token, TokenKind, Tokens};
pub use unit::{Definition, External, Unit};
