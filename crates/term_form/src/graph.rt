//! Functions as graphs of terms and effects. What a graph does stands in `specs/Walk`, what is in scope in
//! `specs/Scope`, and when a graph hangs together in `specs/Graphs`.

use crate::facts::Facts;
use crate::listing::StoreWidth;
use crate::term::{Node, Term};
use word_ops::Items;

/// A function as blocks of terms and effects: what its records tell without places and addresses.
///
/// A block's number is its place in the list. Block 0 is entered first and is the only one without a
/// parent. An edge leads back exactly where its target's number is at most that of the block that it
/// leaves; a tick of the clock is taken there.
#[derive(Debug, Drop)]
pub struct Graph {
    /// how many parameters the function has
    pub parameters: u32,
    /// whether it gives a value back
    pub value: bool,
    /// the bytes of each local object, in the order of their numbers
    pub locals: Items<u32>,
    /// the terms of no block: constants and addresses that are there as the function is entered
    pub ready: Items<Definition>,
    pub blocks: Items<Block>,
}

/// A graph from which code is selected.
///
/// Each constant and each address of an object is one ready term, and where edges with phis leave a
/// block that has several successors, each such edge has a block of its own.
#[derive(Debug, Drop)]
pub struct Emitted {
    pub graph: Graph,
}

/// A block: its items in the order of evaluation, then its end. The items are numbered from 0, and
/// the end has the number behind the last item.
#[derive(Debug, Drop)]
pub struct Block {
    /// the block in whose scope it lies
    pub parent: Option<u32>,
    pub items: Items<Item>,
    pub end: Ending,
    /// the arguments of phis on the edges that leave it
    pub edges: Items<EdgeArgument>,
}

/// A term: how its word comes about, and what is known of it.
#[derive(Clone, Copy, Debug, PartialEq, Eq)]
pub struct Definition {
    pub term: Term,
    pub node: Node,
    pub facts: Facts,
}

/// One item of a block: a term, or an effect.
///
/// The value of a phi comes with the edge by which its block is entered, that of a byte taken with
/// its `Get`, and that of a call with its `Call`: where the term of such a value stands as an item,
/// it has the value already.
#[derive(Debug, Drop)]
pub enum Item {
    /// a term gets its value
    Define(Definition),
    /// the low bytes of a value are stored
    Store {
        width: StoreWidth,
        address: Term,
        value: Term,
    },
    /// the function of this number is called; `called` is the term of its value
    Call {
        function: u32,
        arguments: Items<Term>,
        called: Option<Term>,
    },
    /// one byte of the input is taken
    Get {
        got: Term,
    },
    /// the low byte of the term is put out
    Put {
        term: Term,
    },
    /// the program ends with the term's word modulo 256
    Exit {
        term: Term,
    },
}

/// How a block ends.
#[derive(Clone, Copy, Debug, PartialEq, Eq)]
pub enum Ending {
    /// to one block
    Jump(u32),
    /// to `first` where the term's word is not 0, else to `second`
    Branch { term: Term, first: u32, second: u32 },
    /// out of the function, with the term's value where it gives one back
    Return(Option<Term>),
    /// nowhere: the program has ended before
    Stop,
}

/// On the edge from its block to the block `to`, the argument whose value the phi takes.
#[derive(Clone, Copy, Debug, PartialEq, Eq)]
pub struct EdgeArgument {
    pub to: u32,
    pub phi: Term,
    pub argument: Term,
}
