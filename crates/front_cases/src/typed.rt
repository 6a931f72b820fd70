//! What `check` answers to a unit, as text.

use c_tree::typed::{Primary, StaticPart, TExpr, TStmt, Typed};
use c_types::CheckFault;
use std::alloc::AllocError;

/// Puts a fault of types and its place.
pub fn put_fault(out: &mut String, fault: &CheckFault) -> Result<(), AllocError> {
    match fault {
        CheckFault::Fault(kind, at) => write!(out, "{kind:?} {}:{}", at.line, at.column),
        CheckFault::Memory => out.push_str("Memory"),
    }
}

/// Puts the number that the one statement of `main`, a `return`, gives back.
pub fn put_given(out: &mut String, typed: &Typed) -> Result<(), AllocError> {
    match number_given(typed) {
        Some(number) => write!(out, "{number}"),
        None => out.push_str("no number"),
    }
}

fn number_given(typed: &Typed) -> Option<u32> {
    let main = typed.functions.get(typed.main as usize)?;
    let TStmt::Block(_, made) = &main.body else {
        return None;
    };
    let Some(TStmt::Return(Some(value))) = made.get(0) else {
        return None;
    };
    number_converted(value)
}

/// A number, which may be converted.
fn number_converted(value: &TExpr) -> Option<u32> {
    match value {
        TExpr::Applied(_, first, _) => number(first.get()),
        value => number(value),
    }
}

fn number(value: &TExpr) -> Option<u32> {
    match value {
        TExpr::Primary(_, Primary::Number(number)) => Some(*number),
        _ => None,
    }
}

/// Puts where the addresses with which static objects begin lie in their objects.
pub fn put_addresses(out: &mut String, typed: &Typed) -> Result<(), AllocError> {
    for object in typed.objects.as_slice() {
        put_places(out, object.parts.as_slice())?;
    }
    Ok(())
}

fn put_places(out: &mut String, parts: &[StaticPart]) -> Result<(), AllocError> {
    for part in parts {
        if let StaticPart::Address(_, _, place) = part {
            write!(out, "{} ", *place)?;
        }
    }
    Ok(())
}
