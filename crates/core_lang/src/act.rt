//! The acts of core code and what they take. What each does stands in `specs/Acts`, and when it is well
//! formed in `specs/WellFormed`.

use word_ops::{Items, Op, Width};

/// What an act takes: the value of a variable or a temporary, or a value that is known beforehand.
#[derive(Clone, Copy, Debug, PartialEq, Eq, Hash)]
pub enum Atom {
    /// the value of the variable or temporary of this number
    Var(u32),
    /// a number
    Word(u32),
    /// the address of the static object of this number
    Global(u32),
    /// the address of the local object of this number
    Local(u32),
}

/// The operations in which an operand has to be a pointer.
#[derive(Clone, Copy, Debug, PartialEq, Eq, Hash)]
pub enum PointerOp {
    /// a pointer moved by a number of bytes (C11 6.5.6p8)
    Offset,
    /// how many bytes the first pointer is above the second, within one object (C11 6.5.6p9)
    Difference,
    /// 1 where two pointers are equal, else 0; the number 0 is the null pointer (C11 6.5.9p6)
    Equal,
    /// 1 where the first pointer is below the second, within one object, else 0 (C11 6.5.8p5)
    Before,
    /// 1 where the first pointer is at most at the second, within one object, else 0 (C11 6.5.8p5)
    AtMost,
}

/// One act of core code.
///
/// A number that an act assigns is that of a variable or a temporary. Where what an act does is
/// undefined in C, the act is undefined.
#[derive(Debug, Drop)]
pub enum Core {
    /// assigns a value
    Move(u32, Atom),
    /// assigns what an operation gives
    Operate(u32, Op, Atom, Atom),
    /// assigns what an operation on pointers gives
    Pointer(u32, PointerOp, Atom, Atom),
    /// assigns what a load at an address gives
    Load(u32, Width, Atom),
    /// stores a value, the second operand, at an address
    Store(Width, Atom, Atom),
    /// makes a local object new: none of its bytes has a value
    Enter(u32),
    /// makes all bytes of a local object zero
    Fill(u32),
    /// copies an object: the address of the target, that of the source, the size in bytes, and the
    /// alignment, which is also the unit in which it copies
    Copy(Atom, Atom, u32, u32),
    /// calls a function with arguments, and assigns the value that it gives back, where that is used
    Call(Option<u32>, u32, Items<Atom>),
    /// takes the next byte of the input, and assigns it, or -1 at the end
    Get(u32),
    /// puts the low byte of a number out
    Put(Atom),
    /// ends the program with a number modulo 256
    Exit(Atom),
    /// acts one after another, which a break may leave
    Block(Items<Core>),
    /// acts again and again, until a break leaves them; a tick is taken before each iteration but the first
    Loop(Items<Core>),
    /// leaves the innermost blocks and loops, one more than the number says
    Break(u32),
    /// the first acts where a value is true, else the second
    If(Atom, Items<Core>, Items<Core>),
    /// leaves the function, and gives a value back, where it has one
    Return(Option<Atom>),
}
