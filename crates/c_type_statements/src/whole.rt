//! Statements of their parts, where all of these are there (C11 6.8).
//! No walk: each makes one statement of what the walks of its parts gave.

ghost use Rattle.std.specs.Prelude.{◌≡◌, ◌∷◌, ◌++◌, [], IfOk};
ghost use Rattle.std.specs.Option.{option_map, option_zip};
ghost use Rattle.c_tree.specs.declared.typed.statement.TStmt.TheVariants as t;
ghost use Rattle.c_type_statements.specs.Statements as parts;

use crate::blocks::empty;
use c_tree::typed::{Objects, Part, TExpr, TStmt};
use c_type_declarations::one;
use c_type_walk::Found;
use std::alloc::Global;
use word_ops::{Boxed, Items, Memory};

/// A `while`, where its parts are there.
///
/// # Errors
///
/// `Memory` where memory is wanting.
pub(crate) fn while_of(
    alloc: Global,
    condition: Option<TExpr>,
    body: Option<TStmt>,
) -> Result<Option<TStmt>, Memory>
    ensures { IfOk result (λ r. r ≡ parts.while_of condition body) }
{
    match zipped(alloc, condition, body)? {
        Some((condition, body)) => Ok(Some(TStmt::While(condition, body))),
        None => Ok(None),
    }
}

/// A `do`, where its parts are there.
///
/// # Errors
///
/// `Memory` where memory is wanting.
pub(crate) fn do_of(
    alloc: Global,
    body: Option<TStmt>,
    condition: Option<TExpr>,
) -> Result<Option<TStmt>, Memory>
    ensures { IfOk result (λ r. r ≡ parts.do_of body condition) }
{
    match zipped(alloc, condition, body)? {
        Some((condition, body)) => Ok(Some(TStmt::Do(body, condition))),
        None => Ok(None),
    }
}

/// What is repeated of a `for`, where its parts are there.
///
/// # Errors
///
/// `Memory` where memory is wanting.
pub(crate) fn for_of(
    alloc: Global,
    condition: Option<Option<TExpr>>,
    step: Option<Option<TExpr>>,
    body: Option<TStmt>,
) -> Result<Option<TStmt>, Memory>
    ensures { IfOk result (λ r. r ≡ parts.for_of condition step body) }
{
    match zipped(alloc, condition.zip(step), body)? {
        Some(((condition, step), body)) => Ok(Some(TStmt::For(condition, step, body))),
        None => Ok(None),
    }
}

/// A `switch`, where its parts are there.
pub(crate) fn switch_of(
    operand: Option<TExpr>,
    body: Option<(Objects, Items<Part>)>,
) -> Option<TStmt>
    ensures { result ≡ parts.switch_of operand body }
{
    match operand.zip(body) {
        Some((operand, (objects, parts))) => Some(TStmt::Switch(operand, objects, parts)),
        None => None,
    }
}

/// A block of these objects, where there are statements for it.
pub(crate) fn block_of(objects: Objects, made: Option<Items<TStmt>>) -> Option<TStmt>
    ensures { result ≡ option_map (λ made. t.Block objects made) made }
{
    match made {
        Some(made) => Some(TStmt::Block(objects, made)),
        None => None,
    }
}

/// Something, and what stands behind it in a box, where both are there.
///
/// # Errors
///
/// `Memory` where memory is wanting.
fn zipped<A: Drop, B: Drop>(
    alloc: Global,
    first: Option<A>,
    then: Option<B>,
) -> Result<Option<(A, Boxed<B>)>, Memory>
    ensures { IfOk result (λ r. r ≡ option_zip first then) }
{
    let Some(first) = first else {
        drop(then);
        return Ok(None);
    };
    let Some(then) = then else {
        drop(first);
        return Ok(None);
    };
    Ok(Some(boxed_behind(alloc, first, then)?))
}

/// Something, and what stands behind it in a box.
///
/// # Errors
///
/// `Memory` where memory is wanting.
pub(crate) fn boxed_behind<A: Drop, B: Drop>(
    alloc: Global,
    first: A,
    then: B,
) -> Result<(A, Boxed<B>), Memory>
    ensures { IfOk result (λ r. (r.0 ≡ first) × (r.1 ≡ then)) }
{
    let Ok(then) = Boxed::new(alloc, then) else {
        drop(first);
        return Err(Memory);
    };
    Ok((first, then))
}

/// What the head of a `for` does first, and the loop, where both are there.
///
/// # Errors
///
/// `Memory` where memory is wanting.
pub(crate) fn headed(
    alloc: Global,
    found: &Found,
    first: Option<Option<TExpr>>,
    made: Option<TStmt>,
) -> Result<Option<TStmt>, Memory>
    ensures { IfOk result (λ r. r ≡ parts.headed found.now.state first made) }
{
    match first.zip(made) {
        Some((first, made)) => Ok(Some(for_head(alloc, found, first, made)?)),
        None => Ok(None),
    }
}

/// What the head of a `for` does first, and the loop.
fn for_head(
    alloc: Global,
    found: &Found,
    first: Option<TExpr>,
    made: TStmt,
) -> Result<TStmt, Memory>
    ensures { IfOk result (λ r. r ≡ parts.for_headed found.now.state first made) }
{
    match first {
        Some(first) => Ok(empty(
            alloc,
            found,
            both_in_turn(alloc, TStmt::Evaluate(first), made)?,
        )),
        None => Ok(made),
    }
}

/// One more item behind others.
///
/// # Errors
///
/// `Memory` where memory is wanting.
pub(crate) fn one_behind<T: Drop>(list: Items<T>, item: T) -> Result<Items<T>, Memory>
    ensures { IfOk result (λ longer. longer ≡ list ++ item ∷ []) }
{
    let mut list = list;
    if list.push(item).is_err() {
        drop(list);
        return Err(Memory);
    }
    Ok(list)
}

/// One item and then another.
fn both_in_turn<T: Drop>(alloc: Global, first: T, then: T) -> Result<Items<T>, Memory>
    ensures { IfOk result (λ items. items ≡ first ∷ then ∷ []) }
{
    let Ok(items) = one(alloc, first) else {
        drop(then);
        return Err(Memory);
    };
    one_behind(items, then)
}
