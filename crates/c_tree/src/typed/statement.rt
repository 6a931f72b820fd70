//! Typed statements: objects of blocks, initial values part by part, and jumps (C11 6.7.9, 6.8).
//! Labels of a switch have their values as words.

use crate::typed::expression::TExpr;
use crate::typed::operator::Scalar;
use crate::typed::unit::Object;
use word_ops::{Boxed, Items, Text};

/// The objects that a block declares (C11 6.8.2, 6.2.4p6), or a `for` in its head.
#[derive(Drop)]
pub struct Objects {
    /// how many objects of the function were declared before: its parameters, and the objects of blocks
    /// that begin before this one
    pub first: u32,
    /// the objects, in the order of their declarations
    pub list: Items<Object>,
}

/// A piece of the initial value of an aggregate (C11 6.7.9p17 to p23).
#[derive(Drop)]
pub enum Initial {
    /// a value of scalar type, converted to the type of the member or element, so many bytes from the start
    Value(u32, Scalar, TExpr),
    /// bytes of a string literal that initialises an array, so many bytes from the start (p14)
    Bytes(u32, Text),
}

/// The initial value of an automatic object (C11 6.7.9).
#[derive(Drop)]
pub enum Initialiser {
    /// that of an object of scalar type, converted to its type (p11)
    Scalar(Scalar, TExpr),
    /// that of an array or a structure: zero but for these pieces, in order (p19, p21)
    Aggregate(Items<Initial>),
}

/// A label of a switch (C11 6.8.1).
#[derive(Clone, Copy)]
pub enum Label {
    /// `case`, with its value converted to the promoted type of the operand (C11 6.8.4.2p5)
    Case(u32),
    /// `default`
    Default,
}

/// A statement (C11 6.8), or a declaration with an initialiser.
#[cycle(statements)]
#[derive(Drop)]
pub enum TStmt {
    /// an expression whose value was dropped (C11 6.8.3)
    Evaluate(TExpr),
    /// gives the automatic object of this place in scope its initial value (C11 6.7.9, 6.8p3)
    Initialise(u32, Initialiser),
    /// a compound statement, a `for` whose head declares around the loop, or nothing (C11 6.8.2)
    Block(Objects, Items<TStmt>),
    /// `if` with each `else if`, and what is done where no condition holds (C11 6.8.4.1)
    If(Items<Branch>, Boxed<TStmt>),
    /// `while` (C11 6.8.5.1)
    While(TExpr, Boxed<TStmt>),
    /// `do` (C11 6.8.5.2)
    Do(Boxed<TStmt>, TExpr),
    /// `for` without what its head does first: the condition, which holds where there is none, and what is
    /// done after each iteration (C11 6.8.5.3)
    For(Option<TExpr>, Option<TExpr>, Boxed<TStmt>),
    /// `switch`: the operand, promoted, the objects of its body, and the body from label to label
    /// (C11 6.8.4.2)
    Switch(TExpr, Objects, Items<Part>),
    /// `break` (C11 6.8.6.3)
    Break,
    /// `continue` (C11 6.8.6.2)
    Continue,
    /// `return`, with the value converted to the type of the function (C11 6.8.6.4)
    Return(Option<TExpr>),
}

/// A condition of an `if` and what is done where it holds.
#[cycle(statements)]
#[derive(Drop)]
pub struct Branch {
    /// the condition, of scalar type
    pub condition: TExpr,
    /// what is done
    pub body: TStmt,
}

/// A part of a switch: labels that stand together, and the statements up to the next label.
#[cycle(statements)]
#[derive(Drop)]
pub struct Part {
    /// the labels; none only in front of the first label of the switch
    pub labels: Items<Label>,
    /// the statements
    pub body: Items<TStmt>,
}
