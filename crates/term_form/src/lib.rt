//! Terms and what is known of their words, graphs of terms and their walk, and the listing of a compiled program.
//!
//! A term names one word of a run. This crate has the forms of terms, the facts that hold of a word
//! (two intervals, known bits and a congruence) with their hull and meet, the blocks of a function as a
//! graph of terms, and the records in which an image lists its functions, blocks, terms, effects and
//! edges.
//!
//! The definitions stand in `specs/`: `Meets` and its parts for facts, `Best` for the best facts of the
//! results of an operation, `Walk` for what a graph does, `Scope` for scope and liveness, `Records` for
//! listings. `specs/Laws` has the laws that proofs of other crates cite, and `specs/Examples` computes
//! closed walks.
#![tactic(auto)]

mod bits;
mod congruence;
mod facts;
mod graph;
mod interval;
mod listing;
mod narrower;
mod term;
mod walks;

pub use facts::{Facts, holds, hull, meet};
pub use graph::{Block, Definition, EdgeArgument, Emitted, Ending, Graph, Item};
pub use listing::{
    ArgumentRecord, BlockRecord, EdgeRecord, Effect, EffectRecord, EndKind, EndRecord,
    FunctionRecord, Listing, Mode, Record, StoreWidth, TermKind, TermRecord,
};
pub use narrower::{anything, is_narrower, knows_bits_of, lies_within, only, refines_rest};
pub use term::{Node, Root, Term};
pub use walks::{closed_walks, loads_of_walks, walks_go_on};
