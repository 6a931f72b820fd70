//! The operators of typed expressions: how a scalar is kept, how it is read, and which arithmetic is done (C11 6.2.5, 6.5).
//! Each is an operation on words of 32 bits or on addresses.

use word_ops::{Op, Width};

/// How the value of an object of scalar type is kept (C11 6.2.5p21).
#[derive(Clone, Copy)]
pub enum Scalar {
    /// an integer of this width; `_Bool` is kept as `U8`, enumerated types as `Word`
    Integer(Width),
    /// a pointer, of four bytes
    Pointer,
}

impl Scalar {
    ghost use Rattle.std.specs.Prelude.{◌≡◌};
    ghost use Rattle.c_tree.specs.TypedKinds.{width_of};

    /// How many bytes such an object has, and how they are read: a pointer takes a word (C11 6.2.6.1p4).
    pub fn width(self) -> Width
        ensures { result ≡ width_of self }
    {
        match self {
            Scalar::Integer(width) => width,
            Scalar::Pointer => Width::Word,
        }
    }
}

/// How an integer is read: as signed or as unsigned (C11 6.2.5p4, p6).
#[derive(Clone, Copy, PartialEq, Eq)]
pub enum Sign {
    /// two's complement
    Signed,
    /// the word itself
    Unsigned,
}

/// A conversion (C11 6.3). It carries the width that it leaves: what it gives is a value of that width.
#[derive(Clone, Copy)]
pub enum Conversion {
    /// to an integer type of this width other than `_Bool` (C11 6.3.1.1, 6.3.1.3). A value of a narrow
    /// type is a word already, so a promotion and every conversion between types of four bytes leave
    /// the word as it is.
    Integer(Width),
    /// to `_Bool`, from an integer or a pointer: 1, or 0 where the value compares equal to 0 (C11 6.3.1.2)
    Bool,
    /// to a pointer type, from another one (C11 6.3.2.3p1, p7)
    Pointer,
}

/// The relational and equality operators (C11 6.5.8, 6.5.9).
#[derive(Clone, Copy)]
pub enum Relation {
    /// `<`
    Less,
    /// `>`
    Greater,
    /// `<=`
    AtMost,
    /// `>=`
    AtLeast,
    /// `==`
    Equal,
    /// `!=`
    NotEqual,
}

/// How far an integer moves a pointer (C11 6.5.6p8).
#[derive(Clone, Copy)]
pub struct Stride {
    /// the size in bytes of what the pointer points to, at least 1
    pub element: u32,
    /// how the integer is read, by its promoted type
    pub sign: Sign,
}

/// A binary operator with what it needs to know of the types of its operands, which it takes after
/// their conversion (C11 6.5.5 to 6.5.12).
#[derive(Clone, Copy)]
pub enum Arithmetic {
    /// `*`, `/`, `%`, `+`, `-`, `<<`, `>>`, `&`, `^` and `|` on integers: the operation on words at the converted type
    Word(Op),
    /// a comparison of integers, by the signedness of the converted type
    Compare(Relation, Sign),
    /// a comparison of pointers; for `==` and `!=` the null pointer among them
    ComparePointers(Relation),
    /// a pointer `+` an integer (C11 6.5.6p8), and with it `a[i]` (C11 6.5.2.1p2)
    PointerPlus(Stride),
    /// an integer `+` a pointer, and with it `i[a]`
    PlusPointer(Stride),
    /// a pointer `-` an integer
    PointerMinus(Stride),
    /// a pointer `-` a pointer, by the size in bytes of what they point to (C11 6.5.6p9)
    Difference(u32),
}

/// How an assignment changes an object of scalar type (C11 6.5.16). What it gives is the new value.
#[derive(Clone, Copy)]
pub struct Change {
    /// how the object is kept
    pub scalar: Scalar,
    /// of a compound assignment the operator, whose left operand is the old value (C11 6.5.16.2p3)
    pub operator: Option<Arithmetic>,
    /// from the right operand, or the operator's result, to the object's type (C11 6.5.16.1p2)
    pub conversion: Conversion,
}

/// Which value `++` or `--` gives.
#[derive(Clone, Copy)]
pub enum Given {
    /// that before the change: a postfix operator (C11 6.5.2.4p2)
    Old,
    /// that after it: a prefix operator (C11 6.5.3.1p2)
    New,
}

/// `++` or `--` of an object of scalar type: the change is by the number 1.
#[derive(Clone, Copy)]
pub struct Increment {
    /// how the object is kept
    pub scalar: Scalar,
    /// the operator that adds or takes away, with the old value to its left
    pub operator: Arithmetic,
    /// from the operator's result to the object's type
    pub conversion: Conversion,
    /// which value is given
    pub given: Given,
}

/// What an expression begins with, where that has no operands.
///
/// An automatic object is named by its place among those in scope, from 0: the parameters of the
/// function, and behind them the objects of each block around, outer blocks first. A static object, a
/// string literal among them, is named by its number in the unit.
#[derive(Clone, Copy)]
pub enum Primary {
    /// an integer or character constant, an enumerator, or a `sizeof` (C11 6.5.1p3, 6.4.4, 6.5.3.4)
    Number(u32),
    /// a null pointer: a null pointer constant, converted to a pointer type (C11 6.3.2.3p3)
    Null,
    /// the value of an automatic object of scalar type (C11 6.5.1p2, 6.3.2.1p2)
    Variable(Scalar, u32),
    /// the address of an automatic object: the lvalue itself, an array or a structure, or under `&`
    Address(u32),
    /// the address of a static object
    Static(u32),
    /// `++` or `--` of an automatic object of scalar type
    Increment(u32, Increment),
}

/// What is done with a value, where that takes no other operand.
///
/// An lvalue in memory is its address here, so unary `&` and `*` and the conversion of an array to a
/// pointer are no steps (C11 6.5.3.2p3, p4, 6.3.2.1p3).
#[derive(Clone, Copy)]
pub enum Unary {
    /// reads the object of scalar type that the value is the address of (C11 6.3.2.1p2)
    Load(Scalar),
    /// converts (C11 6.3)
    Convert(Conversion),
    /// `-`, by the promoted type (C11 6.5.3.3p3)
    Negate(Sign),
    /// `~` (C11 6.5.3.3p4)
    Complement,
    /// `!` (C11 6.5.3.3p5)
    Not,
    /// the address of a member, so many bytes above that of its structure (C11 6.5.2.3, 6.7.2.1p15)
    Member(u32),
    /// `++` or `--` of the object of scalar type that the value is the address of
    Increment(Increment),
    /// drops the value: an expression statement, a left operand of a comma, a part of a `for`, a cast to
    /// void (C11 6.3.2.2, 6.8.3p2). A call whose value is dropped is a form of its own, and a drop of a
    /// comma stands at its last operand
    Drop,
}
