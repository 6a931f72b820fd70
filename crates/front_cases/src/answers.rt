//! What the parser of expressions answers, as text: the tree and the place behind it, or the fault and its place.

use crate::trees::{put_declarator, put_expr, put_specifiers};
use c_expr_parser::ParseFault;
use c_tree::{Declarator, Expr, Specifiers};
use std::alloc::AllocError;

/// Puts the fault and its place.
pub fn put_parse_fault(out: &mut String, fault: &ParseFault) -> Result<(), AllocError> {
    match fault {
        ParseFault::Nest(at) => write!(out, "Nest {}:{}", at.line, at.column),
        ParseFault::Syntax(at) => write!(out, "Syntax {}:{}", at.line, at.column),
        ParseFault::Memory => out.push_str("Memory"),
    }
}

/// Puts an expression that was read, or the fault.
pub fn put_expression_answer(
    out: &mut String,
    read: &Result<(Expr, usize), ParseFault>,
) -> Result<(), AllocError> {
    match read {
        Ok((tree, behind)) => {
            put_expr(out, tree)?;
            write!(out, "to {}", *behind)
        }
        Err(fault) => put_parse_fault(out, fault),
    }
}

/// Puts specifiers that were read, or the fault.
pub fn put_specifiers_answer(
    out: &mut String,
    read: &Result<(Specifiers, usize), ParseFault>,
) -> Result<(), AllocError> {
    match read {
        Ok((tree, behind)) => {
            put_specifiers(out, tree.as_slice())?;
            write!(out, "to {}", *behind)
        }
        Err(fault) => put_parse_fault(out, fault),
    }
}

/// Puts a declarator that was read, or the fault.
pub fn put_declarator_answer(
    out: &mut String,
    read: &Result<(Declarator, usize), ParseFault>,
) -> Result<(), AllocError> {
    match read {
        Ok((tree, behind)) => {
            put_declarator(out, tree)?;
            write!(out, "to {}", *behind)
        }
        Err(fault) => put_parse_fault(out, fault),
    }
}

/// Puts the place behind what was read, or the fault.
pub fn put_end(out: &mut String, end: &Result<usize, ParseFault>) -> Result<(), AllocError> {
    match end {
        Ok(behind) => write!(out, "to {}", *behind),
        Err(fault) => put_parse_fault(out, fault),
    }
}
