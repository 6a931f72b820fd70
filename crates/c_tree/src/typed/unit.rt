//! A typed unit (C11 6.9): its objects with their initial values, its functions with their bodies, and `main`.
//! What `check` gives.

use crate::typed::operator::Scalar;
use crate::typed::statement::TStmt;
use crate::typed::types::CType;
use word_ops::{Items, Text};

/// A declared object (C11 6.2.4, 6.7).
#[derive(Drop)]
pub struct Object {
    /// its type
    pub ctype: CType,
    /// how its value is kept, where its type is scalar
    pub scalar: Option<Scalar>,
    /// how many bytes it has, from 1 to 2^24 (C11 6.5.3.4)
    pub size: u32,
    /// its alignment in bytes: 1, 2 or 4 (C11 6.2.8)
    pub alignment: u32,
    /// whether it may not be modified: its type is `const`, or an array of such (C11 6.7.3p6, p9)
    pub constant: bool,
    /// whether `&` is applied to it anywhere
    pub addressed: bool,
}

/// What stands in a static object as the program begins, where that is not zero.
#[derive(Drop)]
pub enum StaticPart {
    /// bytes, so many bytes from the start of the object
    Bytes(u32, Text),
    /// an address, so many bytes from the start: the number of a static object, and a place in it in bytes
    Address(u32, u32, u32),
}

/// An object of static storage duration (C11 6.2.4p3), a string literal among them (C11 6.4.5p6).
#[derive(Drop)]
pub struct StaticObject {
    /// the object; that of a string literal is constant (C11 6.4.5p7)
    pub object: Object,
    /// what does not begin as zero (C11 6.7.9p4, p10)
    pub parts: Items<StaticPart>,
}

/// A function definition (C11 6.9.1).
#[derive(Drop)]
pub struct TFunction {
    /// the type of the value that it returns, or void
    pub result: CType,
    /// how that value is kept, where the type is scalar; none for void
    pub scalar: Option<Scalar>,
    /// the parameters (C11 6.9.1p9)
    pub parameters: Items<Object>,
    /// the body (C11 6.9.1p12)
    pub body: TStmt,
    /// how many tokens the definition has, from its first specifier to its closing brace
    pub tokens: u64,
}

/// A unit that typing accepted (C11 6.9).
///
/// Functions and static objects go by their places in these lists. The functions stand in the order of
/// their definitions.
#[derive(Drop)]
pub struct Typed {
    /// the static objects and string literals
    pub objects: Items<StaticObject>,
    /// the functions that are defined
    pub functions: Items<TFunction>,
    /// the number of `main` among the functions
    pub main: u32,
}
