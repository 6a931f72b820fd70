//! The rows of `,`, `&&` and `||` (C11 6.5.13, 6.5.14, 6.5.17): one tree of a list
//! of operands.

ghost use Rattle.std.specs.Prelude.{◌≡◌, IfOk};
ghost use Rattle.c_tree.specs.declared.typed.expression.TExpr.TheVariants as x;
ghost use Rattle.c_typing.specs.Types as types;
ghost use Rattle.c_typing.specs.Operands as op;
ghost use Rattle.c_typing.specs.OfTrees as trees;

use c_tree::typed::{Base, CType, TExpr};
use c_type_rules::{copied, plain, tree_of, value, valued};
use c_typing::Operand;
use std::alloc::Global;
use word_ops::{Boxed, Items, Memory};

/// `,`: the type and the value of the last operand; the values of the others were dropped (C11 6.5.17p2).
///
/// # Errors
///
/// `Memory` where memory is wanting.
pub fn comma_of(alloc: Global, dropped: Items<TExpr>, last: Operand) -> Result<Operand, Memory>
    ensures { IfOk result (λ o. o ≡ trees.comma_of dropped last) }
{
    let Ok(last) = valued(alloc, last) else {
        drop(dropped);
        return Err(Memory);
    };
    let Ok((ctype, again)) = copied_twice(alloc, &last.ctype) else {
        drop((dropped, last));
        return Err(Memory);
    };
    let Ok(last) = boxed_tree(alloc, last) else {
        drop((dropped, ctype, again));
        return Err(Memory);
    };
    Ok(value(alloc, ctype, TExpr::Comma(again, dropped, last)))
}

/// The tree of an operand, in a box.
fn boxed_tree(alloc: Global, operand: Operand) -> Result<Boxed<TExpr>, Memory>
    ensures { IfOk result (λ tree. tree ≡ op.tree_of operand) }
{
    Ok(Boxed::new(alloc, tree_of(alloc, operand)?)?)
}

/// A type twice: that of an operand, and that of its tree.
fn copied_twice(alloc: Global, ctype: &CType) -> Result<(CType, CType), Memory>
    ensures { IfOk result (λ both. both ≡ (ctype.now, ctype.now)) }
{
    let one = copied(alloc, ctype)?;
    let Ok(other) = copied(alloc, ctype) else {
        drop(one);
        return Err(Memory);
    };
    Ok((one, other))
}

/// `&&` of these operands, which is an `int` (C11 6.5.13p3). Takes no memory.
pub fn all_of(alloc: Global, operands: Items<TExpr>) -> Operand
    ensures { result ≡ op.value types.int (x.All types.int operands) }
{
    let base = TExpr::All(plain(alloc, Base::Int), operands);
    value(alloc, plain(alloc, Base::Int), base)
}

/// `||` of these operands, which is an `int` (C11 6.5.14p3). Takes no memory.
pub fn any_of(alloc: Global, operands: Items<TExpr>) -> Operand
    ensures { result ≡ op.value types.int (x.Any types.int operands) }
{
    let base = TExpr::Any(plain(alloc, Base::Int), operands);
    value(alloc, plain(alloc, Base::Int), base)
}
