//! Code of a function before it lies in a text: over terms, and then over registers and slots.

use rv_table::Row;
use term_form::{Emitted, Term};
use word_ops::Items;

/// What an instruction reads or writes.
#[derive(Clone, Copy)]
pub enum Operand {
    /// the word of a term, wherever it will stand; in `a` of LUI and in `b` of the ADDI behind it, the address of the static object
    /// that the term is
    Of(Term),
    /// a register, x0 to x31
    Fixed(u32),
}

/// An instruction before its operands have registers and its jumps have distances.
///
/// `d` is its destination, `a` and `b` are its sources; what its format lacks is x0, and an immediate that it lacks is 0. A jump
/// says in `imm` where it goes by number: JAL without a link (to x0) and BNE to a block, JAL with one (to x1) to a function. BEQ of
/// x3 goes to the end of runs that nest too deep.
#[derive(Clone, Copy)]
pub struct Loose {
    pub row: Row,
    pub d: Operand,
    pub a: Operand,
    pub b: Operand,
    pub imm: i32,
}

/// The instructions of one item of a block, or of its end, which has the number behind the last item.
#[derive(Drop)]
pub struct Piece {
    pub item: u32,
    /// where the item's own pattern or instruction begins, counted from 0
    pub start: u32,
    pub words: Items<Loose>,
}

/// A function as instructions over terms: for each block its pieces in order.
#[derive(Drop)]
pub struct Code {
    pub emitted: Emitted,
    pub blocks: Items<Items<Piece>>,
}

/// A function as instructions over registers and slots: for each block its pieces in order.
///
/// The pieces have the moves and the loads and stores of slots among them. A jump or a call still names its block or its function,
/// and what loads the address of a static object names its term.
#[derive(Drop)]
pub struct Assigned {
    pub emitted: Emitted,
    /// by the number of a term its place: a register below 32, or 32 and the offset of a slot from the stack pointer
    pub places: Items<u32>,
    /// the bytes of the frame, a multiple of 8, with those of the local objects at its end
    pub frame: u32,
    pub blocks: Items<Items<Piece>>,
}
