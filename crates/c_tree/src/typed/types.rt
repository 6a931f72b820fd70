//! Types (C11 6.2.5): base types, and the pointers, arrays and functions that are derived of them.
//! A tag stands by its number in the table of tags.

use word_ops::Items;

/// A base type: one that is made of no other (C11 6.2.5).
#[derive(Clone, Copy, PartialEq, Eq)]
pub enum Base {
    /// `void` (C11 6.2.5p19)
    Void,
    /// `_Bool`, of one byte (p2)
    Bool,
    /// `char`, of one byte and unsigned by the profile's choice (p3, p15)
    Char,
    /// `signed char`, of one byte (p4)
    SignedChar,
    /// `unsigned char`, of one byte (p6)
    UnsignedChar,
    /// `short`, of two bytes (p4)
    Short,
    /// `unsigned short`, of two bytes (p6)
    UnsignedShort,
    /// `int`, of four bytes (p5)
    Int,
    /// `unsigned int`, of four bytes (p6)
    Unsigned,
    /// `long`, of four bytes (p4)
    Long,
    /// `unsigned long`, of four bytes (p6)
    UnsignedLong,
    /// the enumerated type of this number, counted from 0 in the unit; compatible with `int` (p16, 6.7.2.2p4)
    Enum(u32),
    /// the structure type of this number (p20)
    Struct(u32),
}

/// How a type is derived from the one before it (C11 6.2.5p20).
#[cycle(types)]
#[derive(Drop)]
pub enum Derived {
    /// a pointer to it; whether the pointer itself is `const`
    Pointer(bool),
    /// an array of it, with the number of elements where that is told
    Array(Option<u64>),
    /// a function that returns it, with the types of the parameters
    Function(Items<CType>),
}

/// A type: a base type, whether that is `const`, and derivations, each applied to the type before it.
///
/// `const char *a[3]` has the base `Char`, constant, and the derivations `Pointer(false)` and
/// `Array(Some(3))`.
#[cycle(types)]
#[derive(Drop)]
pub struct CType {
    /// the base type
    pub base: Base,
    /// whether the base type is qualified by `const` (C11 6.7.3)
    pub constant: bool,
    /// the derivations, innermost first
    pub derived: Items<Derived>,
}
