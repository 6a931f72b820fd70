//! The records in which an image lists its functions, blocks, terms, effects and edges: what a program says of its own
//! text.

use crate::facts::Facts;
use crate::term::Term;
use word_ops::{Items, Op, Width};

/// What a program says of its own text: its records in order.
///
/// A record belongs to the last function record before it. The functions stand in the order of their
/// definitions; after each come its ready terms, then each block with its terms and effects in the
/// order of evaluation, the arguments of a call directly after it, the end of the block, and the phi
/// edges that leave the block.
#[derive(Debug, Drop)]
pub struct Listing {
    pub records: Items<Record>,
}

/// One record of a listing.
///
/// An optional number is never `Some(2^32 - 1)` in a listing that is written into an image, where
/// that word says that there is none.
#[derive(Clone, Copy, Debug, PartialEq, Eq)]
pub enum Record {
    Function(FunctionRecord),
    Block(BlockRecord),
    Term(TermRecord),
    Effect(EffectRecord),
    Argument(ArgumentRecord),
    Edge(EdgeRecord),
    End(EndRecord),
}

/// A function, and how it is called.
#[derive(Clone, Copy, Debug, PartialEq, Eq)]
pub struct FunctionRecord {
    pub number: u32,
    /// the address of its first word
    pub entry: u32,
    /// the bytes of its frame
    pub frame: u32,
    /// how many parameters it has
    pub parameters: u32,
    /// whether it gives a value back
    pub value: bool,
}

/// A block of a function. The block without a parent is the one that is entered first.
#[derive(Clone, Copy, Debug, PartialEq, Eq)]
pub struct BlockRecord {
    pub number: u32,
    pub function: u32,
    /// the block in whose scope it lies
    pub parent: Option<u32>,
    /// the address of its first word
    pub address: u32,
}

/// A term: how its word comes about, where it stands, and what is known of it.
#[derive(Clone, Copy, Debug, PartialEq, Eq)]
pub struct TermRecord {
    pub term: Term,
    /// the block that it belongs to; none for a ready term
    pub block: Option<u32>,
    pub kind: TermKind,
    pub mode: Mode,
    /// the number of the first operand's term; of a constant its word, of a global its address, of a
    /// local its offset from the stack pointer, of a parameter its position; 2^32 - 1 where the kind
    /// has no such thing
    pub a: u32,
    /// the number of the second operand's term; 2^32 - 1 where the kind has none
    pub b: u32,
    /// the address at which the term gets its word, by its mode
    pub address: u32,
    /// a register below 32, or 32 plus the offset of a slot from the stack pointer
    pub place: u32,
    pub facts: Facts,
}

/// How the word of a listed term comes about.
#[derive(Clone, Copy, Debug, PartialEq, Eq)]
pub enum TermKind {
    /// an operation on words
    Operate(Op),
    /// a constant
    Konst,
    /// the address of a static object
    Global,
    /// the address of a local object
    Local,
    /// an argument of the function
    Param,
    /// the word of the argument of the edge by which the block is entered
    Phi,
    /// what a read of one input byte gives
    Got,
    /// the value that a call gives back
    Called,
    /// a load of this width
    Load(Width),
}

/// When a listed term gets its word.
#[derive(Clone, Copy, Debug, PartialEq, Eq)]
pub enum Mode {
    /// after the instructions that begin at the address, as the word of the last one's result
    After,
    /// as the program arrives at the address, as the word of the place
    At,
    /// as its function begins
    Ready,
}

/// An effect of a block: a store, a call, or a read or a write of the outside.
#[derive(Clone, Copy, Debug, PartialEq, Eq)]
pub struct EffectRecord {
    pub block: u32,
    /// the address of the store, the jump or the environment call
    pub address: u32,
    pub effect: Effect,
}

/// What an effect does, and on which terms.
#[derive(Clone, Copy, Debug, PartialEq, Eq)]
pub enum Effect {
    /// the low bytes of a value are stored
    Store {
        width: StoreWidth,
        address: Term,
        value: Term,
    },
    /// a function is called with as many arguments; `called` is the term of its value
    Call {
        function: u32,
        arguments: u32,
        called: Option<Term>,
    },
    /// one byte of the input is taken
    Get {
        got: Term,
    },
    /// the low byte of the term is put out
    Put {
        term: Term,
    },
    /// the program ends with the term's word modulo 256
    Exit {
        term: Term,
    },
}

/// How many bytes a store writes.
#[derive(Clone, Copy, Debug, PartialEq, Eq)]
pub enum StoreWidth {
    /// one byte
    Byte,
    /// two bytes
    Half,
    /// four bytes
    Word,
}

/// An argument of the call before it.
#[derive(Clone, Copy, Debug, PartialEq, Eq)]
pub struct ArgumentRecord {
    /// counted from 0
    pub position: u32,
    pub term: Term,
}

/// On the edge between two blocks, the argument whose word a phi takes.
#[derive(Clone, Copy, Debug, PartialEq, Eq)]
pub struct EdgeRecord {
    pub from: u32,
    pub to: u32,
    pub phi: Term,
    pub argument: Term,
}

/// The end of a block.
///
/// A jump goes to `first`. A branch goes to `first` where the term's word is not 0, else to `second`.
/// A return gives the term's word back, where it has one. What a kind does not use may be anything.
#[derive(Clone, Copy, Debug, PartialEq, Eq)]
pub struct EndRecord {
    pub block: u32,
    pub kind: EndKind,
    pub term: Option<Term>,
    pub first: Option<u32>,
    pub second: Option<u32>,
    /// the address of its last word
    pub address: u32,
}

/// How a block ends.
#[derive(Clone, Copy, Debug, PartialEq, Eq)]
pub enum EndKind {
    /// to one block
    Jump,
    /// to one of two blocks
    Branch,
    /// out of the function
    Return,
    /// the program has ended before
    Stop,
}
