//! What an initialiser may fill, and where none may stand (C11 6.7.9).
//! Walks over an initialiser, by c_type_initialisers, where one stands.

ghost use Rattle.std.specs.Option.{option_copied};
ghost use Rattle.c_typing.specs.Declarations as spec;
ghost use Rattle.c_typing.specs.Declarators as declarators;
ghost use Rattle.c_typing.specs.Initialisers.{initialiser_typing};
ghost use Rattle.c_type_walk.specs.Walks.{Walks};
ghost use Rattle.c_type_declarations.specs.Starting.{starting};

use crate::objects::is_open_array;
use c_tree::typed::{CType, TStmt};
use c_tree::{FaultKind, Initialiser, Pos};
use c_type_declarators::complete_row;
use c_type_initialisers::{fill, first_of_initialiser};
use c_type_rules::copied;
use c_type_walk::{Around, Found};
use c_typing::Filled;
use std::alloc::Global;
use word_ops::{Items, Memory};

/// Where no initialiser may stand, there is none.
///
/// # Errors
///
/// `Memory` where memory is wanting.
pub(crate) fn without_start(
    alloc: Global,
    found: &mut Found,
    around: &Around<'_>,
    start: Option<&Initialiser>,
) -> Result<Option<Items<TStmt>>, Memory>
    ensures { Walks (spec.without_start (starting (option_copied start.entry))) around.now found.old result found.new }
{
    match start {
        None => Ok(Some(Items::new(alloc))),
        Some(start) => found.tell(around, FaultKind::Mismatch, first_of_initialiser(start)),
    }
}

/// The type that an initialiser fills: complete, or an array without a number of elements (C11 6.7.9p3).
///
/// # Errors
///
/// `Memory` where memory is wanting.
pub(crate) fn fillable_row(
    found: &mut Found,
    around: &Around<'_>,
    at: Pos,
    ctype: CType,
) -> Result<Option<CType>, Memory>
    ensures { Walks (spec.fillable_row at ctype) around.now found.old result found.new }
{
    if is_open_array(&ctype) {
        return Ok(Some(ctype));
    }
    complete_row(found, around, at, ctype)
}

/// Whether a type that is kept elsewhere is complete.
///
/// # Errors
///
/// `Memory` where memory is wanting.
pub(crate) fn completed_row(
    alloc: Global,
    found: &mut Found,
    around: &Around<'_>,
    at: Pos,
    ctype: &CType,
) -> Result<Option<CType>, Memory>
    ensures { Walks (declarators.complete_row at ctype.now) around.now found.old result found.new }
{
    complete_row(found, around, at, copied(alloc, ctype)?)
}

/// What an initialiser fills of a type that is kept elsewhere.
///
/// # Errors
///
/// `Memory` where memory is wanting.
pub(crate) fn filled_row(
    alloc: Global,
    found: &mut Found,
    around: &Around<'_>,
    start: &Initialiser,
    ctype: &CType,
) -> Result<Option<Filled>, Memory>
    ensures { Walks ((initialiser_typing start.now).fill 0 ctype.now) around.now found.old result found.new }
{
    fill(alloc, found, around, start, 0, copied(alloc, ctype)?)
}
