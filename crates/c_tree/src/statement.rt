//! Statements and blocks as trees (C11 6.8), with the place of each token.
//! An `if` with its `else if`s is one node with a list, so that long chains nest no deeper.

use crate::declaration::Declaration;
use crate::expression::Expr;
use crate::token::Pos;
use word_ops::{Boxed, Items};

/// `(` expression `)` behind `if`, `while` or `switch`.
#[derive(Drop)]
pub struct Condition {
    pub opening: Pos,
    pub value: Expr,
    pub closing: Pos,
}

/// `if` behind `else`, and its condition.
#[derive(Drop)]
pub struct IfHead {
    pub word: Pos,
    pub condition: Condition,
}

/// What stands first in the brackets of `for`: an expression or nothing and `;`, or a declaration.
#[derive(Drop)]
pub enum ForHead {
    Expression(Option<Expr>, Pos),
    Declaration(Declaration),
}

/// What stands in the brackets of `for` (C11 6.8.5.3).
#[derive(Drop)]
pub struct ForControl {
    pub opening: Pos,
    pub head: ForHead,
    pub condition: Option<Expr>,
    pub semicolon: Pos,
    pub step: Option<Expr>,
    pub closing: Pos,
}

/// A statement (C11 6.8), with the place of each of its tokens.
#[cycle(statement)]
#[derive(Drop)]
pub enum Stmt {
    /// A compound statement (C11 6.8.2).
    Block(Block),
    /// An expression or nothing, `;` (C11 6.8.3)
    Expression(Option<Expr>, Pos),
    /// `if`, its condition and body, and each `else` behind it (C11 6.8.4.1).
    If {
        word: Pos,
        condition: Condition,
        body: Boxed<Stmt>,
        others: Items<Else>,
    },
    /// `while`, its condition and body (C11 6.8.5.1).
    While(Pos, Condition, Boxed<Stmt>),
    /// `do`, its body, `while`, its condition, `;` (C11 6.8.5.2)
    Do {
        word: Pos,
        body: Boxed<Stmt>,
        while_word: Pos,
        condition: Condition,
        semicolon: Pos,
    },
    /// `for`, what stands in its brackets, and its body (C11 6.8.5.3).
    For(Pos, ForControl, Boxed<Stmt>),
    /// `switch`, its condition and the block that is its body (C11 6.8.4.2).
    Switch(Pos, Condition, Block),
    /// `break` `;`
    Break(Pos, Pos),
    /// `continue` `;`
    Continue(Pos, Pos),
    /// `return`, an expression or nothing, `;`
    Return(Pos, Option<Expr>, Pos),
}

/// `else`, an `if` with its condition unless this is the last `else`, and its body.
#[cycle(statement)]
#[derive(Drop)]
pub struct Else {
    pub word: Pos,
    pub head: Option<IfHead>,
    pub body: Stmt,
}

/// `{` items `}` (C11 6.8.2)
#[cycle(statement)]
#[derive(Drop)]
pub struct Block {
    pub opening: Pos,
    pub items: Items<BlockItem>,
    pub closing: Pos,
}

/// What stands in a block. Labels stand only in the block of a `switch`.
#[cycle(statement)]
#[derive(Drop)]
pub enum BlockItem {
    /// A declaration.
    Declaration(Declaration),
    /// A statement.
    Statement(Stmt),
    /// `case` value `:`
    Case(Pos, Expr, Pos),
    /// `default` `:`
    Default(Pos, Pos),
}
