//! The public calls.
//! Each begins a walk over a whole tree: it makes the walker and hands the tree to it.

ghost use Rattle.std.specs.Prelude.{◌≡◌, map};
ghost use Rattle.c_typing.specs.Declarators as declarators;
ghost use Rattle.c_typing.specs.Trees as typing;
ghost use Rattle.c_type_walk.specs.Walks.{Walks};

use crate::held::released;
use crate::inside::inside;
use crate::walker::Walker;
use c_tree::typed::CType;
use c_tree::{Declarator, Expr, Pos, Specifier};
use c_type_walk::{Around, Found};
use c_typing::{Basis, Operand, Part};
use std::alloc::Global;
use word_ops::{Items, Memory};

/// How many trees may stand inside one another, an operand with which an expression begins not counted. The count is what the recursion
/// ends by; it runs out for no tree, since each one takes a place of its own in an address space of 64 bits.
const DEEPEST: u64 = u64::MAX;

/// What typing makes of an expression (C11 6.5), or `None` where a fault stands in it.
///
/// # Errors
///
/// `Memory` where memory is wanting.
pub fn expr(
    alloc: Global,
    found: &mut Found,
    around: &Around<'_>,
    tree: &Expr,
) -> Result<Option<Operand>, Memory>
    ensures { Walks (typing.expr_typing tree.now).typed around.now found.old result found.new }
{
    let walker = Walker {
        alloc,
        more: DEEPEST,
        inside,
    };
    let value = walker.expr(found, around, tree)?;
    Ok(released(value))
}

/// What specifiers are as a whole (C11 6.7), or `None` where a fault stands in them; whether they stand alone, without a declarator
/// behind them, matters to a tag (C11 6.7.2.3p7).
///
/// # Errors
///
/// As of `expr`.
pub fn specifiers(
    alloc: Global,
    found: &mut Found,
    around: &Around<'_>,
    alone: bool,
    list: &[Specifier],
) -> Result<Option<Basis>, Memory>
    ensures { Walks (declarators.specifiers_row alone (map typing.specifier_typing list.now)) around.now found.old result found.new }
{
    let walker = Walker {
        alloc,
        more: DEEPEST,
        inside,
    };
    walker.specifiers(found, around, alone, list)
}

/// The type that a declarator makes of another one (C11 6.7.6p4, p5); the place stands for the name where there is none. Of the
/// declarator of a definition the parameters stay in scope.
///
/// # Errors
///
/// As of `expr`.
pub fn declared_type(
    alloc: Global,
    found: &mut Found,
    around: &Around<'_>,
    tree: &Declarator,
    defining: bool,
    place: Pos,
    basis: Option<CType>,
) -> Result<Option<CType>, Memory>
    ensures { Walks (declarators.declared_type (typing.declarator_typing tree.now) defining place basis) around.now found.old result found.new }
{
    let walker = Walker {
        alloc,
        more: DEEPEST,
        inside,
    };
    walker.declared_type(found, around, tree, defining, place, basis)
}

/// The derivations of a declarator, each applied to the type before it (C11 6.7.6); the parameters of the part beside the name are
/// kept in scope where it is that of a definition.
///
/// # Errors
///
/// As of `expr`.
pub fn parts(
    alloc: Global,
    found: &mut Found,
    around: &Around<'_>,
    tree: &Declarator,
    defining: bool,
) -> Result<Option<Items<Part>>, Memory>
    ensures { Walks ((typing.declarator_typing tree.now).parts defining) around.now found.old result found.new }
{
    let walker = Walker {
        alloc,
        more: DEEPEST,
        inside,
    };
    walker.parts(found, around, tree, defining)
}
