//! A table of names in nested scopes.
//!
//! What an inner scope declares hides what the outer ones say of the same key, and is forgotten where
//! that scope is left. The table is the list of its pairs: a scope is opened by a mark, which is the
//! length of the list, and is left by going back to that length. A look-up takes constant time: the last place of each hash of
//! a key is kept, and with each pair the place of the one before it whose key has the same hash.
#![tactic(auto)]

mod places;
mod table;

pub use table::ScopeMap;
