//! Expressions in statements, and jumps (C11 6.8.3, 6.8.4, 6.8.5, 6.8.6).
//! Walks over single expressions, by c_type_trees, and hands what they are to rows of c_type_expressions.

ghost use Rattle.std.specs.Prelude.{None, Some};
ghost use Rattle.std.specs.Option.{option_copied, option_map};
ghost use Rattle.c_typing.specs.OfStatements as spec;
ghost use Rattle.c_typing.specs.Trees.{expr_typing};
ghost use Rattle.c_type_walk.specs.Walks.{Walks, fixed};
ghost use Rattle.c_type_statements.specs.Statements as parts;

use crate::blocks::empty;
use c_tree::typed::{TExpr, TStmt};
use c_tree::{Expr, FaultKind, Pos};
use c_type_expressions::{given_row, truth_row};
use c_type_rules::{converted, dropping, is_integer, is_void, promoted_type, tree_of, valued};
use c_type_trees::expr;
use c_type_walk::{Around, Found};
use c_typing::Operand;
use std::alloc::Global;
use word_ops::{Items, Memory};

/// An expression whose value is dropped (C11 6.8.3p2).
///
/// # Errors
///
/// `Memory` where memory is wanting.
pub(crate) fn dropped_row(
    alloc: Global,
    found: &mut Found,
    around: &Around<'_>,
    tree: &Expr,
) -> Result<Option<TExpr>, Memory>
    ensures { Walks (spec.dropped_row (expr_typing tree.now)) around.now found.old result found.new }
{
    let Some(operand) = expr(alloc, found, around, tree)? else {
        return Ok(None);
    };
    Ok(Some(tree_of(alloc, dropping(alloc, operand)?)?))
}

/// An expression statement; without an expression it is nothing (C11 6.8.3).
///
/// # Errors
///
/// `Memory` where memory is wanting.
pub(crate) fn expression_row(
    alloc: Global,
    found: &mut Found,
    around: &Around<'_>,
    tree: Option<&Expr>,
) -> Result<Option<TStmt>, Memory>
    ensures { Walks (parts.expression_row (option_map expr_typing (option_copied tree.entry))) around.now found.old result found.new }
{
    match tree {
        None => Ok(Some(empty(alloc, found, Items::new(alloc)))),
        Some(tree) => evaluate_row(alloc, found, around, tree),
    }
}

fn evaluate_row(
    alloc: Global,
    found: &mut Found,
    around: &Around<'_>,
    tree: &Expr,
) -> Result<Option<TStmt>, Memory>
    ensures { Walks (spec.evaluate_row (expr_typing tree.now)) around.now found.old result found.new }
{
    let Some(value) = dropped_row(alloc, found, around, tree)? else {
        return Ok(None);
    };
    Ok(Some(TStmt::Evaluate(value)))
}

/// A condition is true or false; the fault stands at the word (C11 6.8.4.1p1, 6.8.5p2).
///
/// # Errors
///
/// `Memory` where memory is wanting.
pub(crate) fn condition_row(
    alloc: Global,
    found: &mut Found,
    around: &Around<'_>,
    at: Pos,
    tree: &Expr,
) -> Result<Option<TExpr>, Memory>
    ensures { Walks (spec.condition_row at (expr_typing tree.now)) around.now found.old result found.new }
{
    let Some(operand) = expr(alloc, found, around, tree)? else {
        return Ok(None);
    };
    let Some(truth) = truth_row(alloc, found, around, at, operand)? else {
        return Ok(None);
    };
    Ok(Some(tree_of(alloc, truth)?))
}

/// A condition, where there is one.
///
/// # Errors
///
/// `Memory` where memory is wanting.
pub(crate) fn condition_if_any(
    alloc: Global,
    found: &mut Found,
    around: &Around<'_>,
    at: Pos,
    tree: Option<&Expr>,
) -> Result<Option<Option<TExpr>>, Memory>
    ensures { Walks (spec.if_any (spec.condition_row at) (option_map expr_typing (option_copied tree.entry))) around.now found.old result found.new }
{
    let Some(tree) = tree else {
        return Ok(Some(None));
    };
    let Some(condition) = condition_row(alloc, found, around, at, tree)? else {
        return Ok(None);
    };
    Ok(Some(Some(condition)))
}

/// An expression whose value is dropped, where there is one.
///
/// # Errors
///
/// `Memory` where memory is wanting.
pub(crate) fn dropped_if_any(
    alloc: Global,
    found: &mut Found,
    around: &Around<'_>,
    tree: Option<&Expr>,
) -> Result<Option<Option<TExpr>>, Memory>
    ensures { Walks (spec.if_any spec.dropped_row (option_map expr_typing (option_copied tree.entry))) around.now found.old result found.new }
{
    let Some(tree) = tree else {
        return Ok(Some(None));
    };
    let Some(value) = dropped_row(alloc, found, around, tree)? else {
        return Ok(None);
    };
    Ok(Some(Some(value)))
}

/// The operand of a `switch`, promoted (C11 6.8.4.2p1, p5).
///
/// # Errors
///
/// `Memory` where memory is wanting.
pub(crate) fn operand_row(
    alloc: Global,
    found: &mut Found,
    around: &Around<'_>,
    at: Pos,
    operand: Operand,
) -> Result<Option<TExpr>, Memory>
    ensures { Walks (spec.operand_row at operand) around.now found.old result found.new }
{
    let value = valued(alloc, operand)?;
    if !is_integer(&value.ctype) {
        drop(value);
        return found.tell(around, FaultKind::Mismatch, at);
    }
    let promoted = promoted_type(alloc, &value.ctype);
    Ok(Some(tree_of(alloc, converted(alloc, promoted, value)?)?))
}

/// The expression of a `switch`.
///
/// # Errors
///
/// `Memory` where memory is wanting.
pub(crate) fn switched(
    alloc: Global,
    found: &mut Found,
    around: &Around<'_>,
    at: Pos,
    condition: &Expr,
) -> Result<Option<TExpr>, Memory>
    ensures { Walks (parts.switched at (expr_typing condition.now)) around.now found.old result found.new }
{
    let Some(operand) = expr(alloc, found, around, condition)? else {
        return Ok(None);
    };
    operand_row(alloc, found, around, at, operand)
}

/// `break` (C11 6.8.6.3).
///
/// # Errors
///
/// `Memory` where memory is wanting.
pub(crate) fn break_row(
    found: &mut Found,
    around: &Around<'_>,
    at: Pos,
) -> Result<Option<TStmt>, Memory>
    ensures { Walks (spec.break_row at) around.now found.old result found.new }
{
    if !around.may_break {
        return found.tell(around, FaultKind::Stray, at);
    }
    Ok(Some(TStmt::Break))
}

/// `continue` (C11 6.8.6.2).
///
/// # Errors
///
/// `Memory` where memory is wanting.
pub(crate) fn continue_row(
    found: &mut Found,
    around: &Around<'_>,
    at: Pos,
) -> Result<Option<TStmt>, Memory>
    ensures { Walks (spec.continue_row at) around.now found.old result found.new }
{
    if !around.may_continue {
        return found.tell(around, FaultKind::Stray, at);
    }
    Ok(Some(TStmt::Continue))
}

/// `return` (C11 6.8.6.4): a function of type `void` gives no value, any other one gives one (p1).
///
/// # Errors
///
/// `Memory` where memory is wanting.
pub(crate) fn return_row(
    alloc: Global,
    found: &mut Found,
    around: &Around<'_>,
    at: Pos,
    tree: Option<&Expr>,
) -> Result<Option<TStmt>, Memory>
    ensures { Walks (spec.return_row at (option_map expr_typing (option_copied tree.entry))) around.now found.old result found.new }
{
    match tree {
        None => return_nothing(found, around, at),
        Some(tree) => return_value(alloc, found, around, at, tree),
    }
}

fn return_nothing(found: &mut Found, around: &Around<'_>, at: Pos) -> Result<Option<TStmt>, Memory>
    ensures { Walks (spec.return_row at None) around.now found.old result found.new }
{
    if !is_void(around.result) {
        return found.tell(around, FaultKind::Mismatch, at);
    }
    Ok(Some(TStmt::Return(None)))
}

fn return_value(
    alloc: Global,
    found: &mut Found,
    around: &Around<'_>,
    at: Pos,
    tree: &Expr,
) -> Result<Option<TStmt>, Memory>
    ensures { Walks (spec.return_row at (Some (expr_typing tree.now))) around.now found.old result found.new }
{
    found.tell_if(is_void(around.result), FaultKind::Mismatch, at)?;
    let operand = expr(alloc, found, around, tree)?;
    match returned(alloc, found, around, at, operand)? {
        Some(value) => Ok(Some(TStmt::Return(Some(value)))),
        None => Ok(None),
    }
}

/// The value that a function gives, which is asked of no function of type `void`.
fn returned(
    alloc: Global,
    found: &mut Found,
    around: &Around<'_>,
    at: Pos,
    operand: Option<Operand>,
) -> Result<Option<TExpr>, Memory>
    ensures { Walks (spec.returned at (fixed around.now).result operand) around.now found.old result found.new }
{
    let Some(operand) = operand else {
        return Ok(None);
    };
    if is_void(around.result) {
        drop(operand);
        return Ok(None);
    }
    given_row(alloc, found, around, at, around.result, operand)
}
