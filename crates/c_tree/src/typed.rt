//! The typed forms of a C unit: what typing gives, what has a meaning, and what is lowered.
//!
//! A typed tree is not the syntax tree with types beside it. It says what is done: names are numbers
//! of objects and functions, each conversion is a step of its own, a place where an object's value is
//! read is told apart from the object's address, and whatever depends on a type (the width of an
//! access, the size of an element, the offset of a member) stands as a number where it is used. So
//! neither the meaning nor the lowering looks at a type.
//!
//! Lists of operators of one level, runs of casts and prefix operators and of postfix operators,
//! chains of assignments, of `? :` and of `else if` are lists here as in the syntax tree, so that typed
//! trees nest no deeper than the source's brackets and bodies.

mod expression;
mod operator;
mod statement;
mod types;
mod unit;

pub use expression::{Arm, Step, TExpr, Target};
pub use operator::{
    Arithmetic, Change, Conversion, Given, Increment, Primary, Relation, Scalar, Sign, Stride,
    Unary,
};
pub use statement::{Branch, Initial, Initialiser, Label, Objects, Part, TStmt};
pub use types::{Base, CType, Derived};
pub use unit::{Object, StaticObject, StaticPart, TFunction, Typed};
