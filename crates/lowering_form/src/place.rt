//! Where an object of a function is kept: what the definition of lowering and its code have in common.

use core_lang::Atom;

/// Where an object is kept (C11 6.2.4).
#[derive(Clone, Copy)]
pub enum Place {
    /// in the variable of this number: a scalar object whose address is never used
    Variable(u32),
    /// in memory, at this address
    Memory(Atom),
}
