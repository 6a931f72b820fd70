//! Typed expressions: each with its type, conversions written out and designators as addresses (C11 6.5, 6.3).
//! Typing gives them, and lowering reads nothing else.

use crate::typed::operator::{Arithmetic, Change, Primary, Unary};
use crate::typed::types::CType;
use word_ops::{Boxed, Items};

/// An expression (C11 6.5). Each form has first the type of the whole; that of a designator is the
/// type of the object (C11 6.5p1).
#[cycle(expressions)]
#[derive(Drop)]
pub enum TExpr {
    /// something without operands
    Primary(CType, Primary),
    /// an expression, and what is then done with its value, first to last.
    ///
    /// `-a[i + 1].x` begins with the address of `a`; then come `+` with the operand `i + 1`, the
    /// member `x`, the read of that member, and the sign. A value of struct type is the address of
    /// the struct.
    Applied(CType, Boxed<TExpr>, Items<Step>),
    /// operands of `&&`, at least two (C11 6.5.13)
    All(CType, Items<TExpr>),
    /// operands of `||`, at least two (C11 6.5.14)
    Any(CType, Items<TExpr>),
    /// `a ? b : c ? d : e`: the conditions with what is chosen where they hold, and what is chosen where
    /// none does; each value is converted to the type of the whole (C11 6.5.15)
    Choose(CType, Items<Arm>, Boxed<TExpr>),
    /// operands of a comma: those whose value is dropped, and the last (C11 6.5.17)
    Comma(CType, Items<TExpr>, Boxed<TExpr>),
    /// `a = b += c`: the left sides, and the value at the right end (C11 6.5.16)
    Assign(CType, Items<Target>, Boxed<TExpr>),
    /// a call whose value is used: the number of the function in the unit, and the arguments, converted
    /// to the types of the parameters (C11 6.5.2.2)
    Call(CType, u32, Items<TExpr>),
    /// a call whose value is dropped, or that has none
    DroppedCall(CType, u32, Items<TExpr>),
    /// `getchar()` (C11 7.21.7.6)
    GetChar(CType),
    /// `putchar(c)` (C11 7.21.7.8)
    PutChar(CType, Boxed<TExpr>),
    /// `exit(status)`, which gives no value (C11 7.22.4.4)
    Exit(CType, Boxed<TExpr>),
}

impl TExpr {
    ghost use Rattle.std.specs.Prelude.{◌≡◌};
    ghost use Rattle.c_tree.specs.TypedKinds.{type_of};

    /// The type of the expression; that of a designator is the type of the object (C11 6.5p1).
    pub fn ctype(&self) -> &CType
        ensures { result.now ≡ type_of self.now }
    {
        match self {
            TExpr::Primary(t, _) => t,
            TExpr::Applied(t, _, _) => t,
            TExpr::All(t, _) => t,
            TExpr::Any(t, _) => t,
            TExpr::Choose(t, _, _) => t,
            TExpr::Comma(t, _, _) => t,
            TExpr::Assign(t, _, _) => t,
            TExpr::Call(t, _, _) => t,
            TExpr::DroppedCall(t, _, _) => t,
            TExpr::GetChar(t) => t,
            TExpr::PutChar(t, _) => t,
            TExpr::Exit(t, _) => t,
        }
    }
}

/// What is done with a value.
#[cycle(expressions)]
#[derive(Drop)]
pub enum Step {
    /// something that takes no other operand
    Unary(Unary),
    /// a binary operator with its right operand
    Binary(Arithmetic, TExpr),
}

/// A condition of `? :` and what is chosen where it holds.
#[cycle(expressions)]
#[derive(Drop)]
pub struct Arm {
    /// the condition, of scalar type
    pub condition: TExpr,
    /// what is chosen
    pub chosen: TExpr,
}

/// The left side of an assignment.
#[cycle(expressions)]
#[derive(Drop)]
pub enum Target {
    /// an automatic object of scalar type, by its place in scope
    Variable(u32, Change),
    /// the object of scalar type of this address
    Place(TExpr, Change),
}
