//! Why a source is refused: features that the profile leaves out, and the kinds of faults of typing.
//! Their names are those that the program prints.

use crate::token::Pos;

/// A feature of C11 that the profile leaves out by name.
#[derive(Clone, Copy, Debug)]
pub enum Feature {
    /// floating types and constants
    Float,
    /// complex types
    Complex,
    /// atomic types
    Atomic,
    /// thread storage duration
    ThreadLocal,
    /// `volatile`
    Volatile,
    /// `restrict`
    Restrict,
    /// `inline`
    Inline,
    /// `_Noreturn`
    NoReturn,
    /// `_Alignas`
    AlignAs,
    /// `_Alignof`
    AlignOf,
    /// generic selection
    Generic,
    /// static assertions
    StaticAssert,
    /// unions
    Union,
    /// `goto`
    Goto,
    /// variable arguments
    Variadic,
    /// literals with an encoding prefix
    Wide,
    /// universal character names
    UniversalName,
    /// character constants of several elements
    MultiChar,
    /// integer types above 32 bits
    LongLong,
}

/// What the types of a source can have wrong, in the order in which two faults at one place are told.
#[derive(Clone, Copy, Debug)]
pub enum FaultKind {
    /// Specifiers name no type of the profile or two, two storage words, or `auto` or `register` at file level.
    BadSpecifier,
    /// A name has no visible declaration, or a struct has no such member.
    Undeclared,
    /// A name, tag, member, enumerator, case value or `default` stands twice where one may stand.
    Redeclared,
    /// The size of an incomplete type, of void or of a function is needed.
    Incomplete,
    /// An array size is not positive.
    BadSize,
    /// A type has more than 2^24 bytes.
    TooLarge,
    /// A constant expression is wanted and this is none, or an enumerator is no int.
    NotConstant,
    /// An lvalue is wanted and this is none.
    NotLvalue,
    /// A const lvalue is written.
    ConstWrite,
    /// A function name does not stand directly before the `(` of its call, or a declarator makes a type of functions that the profile leaves out.
    FunctionUse,
    /// The called name is no function, or the number of arguments differs.
    BadCall,
    /// Types do not go together, or an initialiser has too many items.
    Mismatch,
    /// A struct is assigned, passed, given back or initialises a struct.
    StructValue,
    /// `break` outside a loop and switch, or `continue` outside a loop.
    Stray,
    /// A function that is called or an extern object that is used has no definition.
    NoBody,
    /// `main` is not defined, or has not the type `int main(void)`.
    NoMain,
}

/// Why a source is refused, and where.
#[derive(Clone, Copy, Debug)]
pub enum Refusal {
    /// The bytes at this place begin no token.
    BadToken(Pos),
    /// The token at this place belongs to a feature that is left out.
    Unsupported(Feature, Pos),
    /// No sentence of the grammar begins with the tokens up to this place.
    Syntax(Pos),
    /// The token at this place is nested too deeply.
    Nest(Pos),
    /// The types have this fault.
    Fault(FaultKind, Pos),
    /// The part of the language at this place is not built yet.
    NotYet(Pos),
}
