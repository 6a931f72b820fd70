//! Declarations with linkage: functions, file-level objects and externs (C11 6.2.2p4, p5, 6.9.2).
//! Rows from the type of a declarator on; its initialiser is walked over by c_type_initialisers.

ghost use Rattle.std.specs.Prelude.{◌≡◌, IfOk, None, Some, false};
ghost use Rattle.std.specs.Option.{option_copied};
ghost use Rattle.c_typing.specs.Declarations as spec;
ghost use Rattle.c_typing.specs.Initialisers.{initialiser_typing};
ghost use Rattle.c_typing.specs.Scopes as scopes;
ghost use Rattle.c_type_walk.specs.Walks.{Walks};
ghost use Rattle.c_type_declarations.specs.Starting.{starting};

use crate::linkage::{linked, linked_faults};
use crate::objects::{counted, sized_row};
use crate::second_declarations::composed;
use crate::starts::{fillable_row, filled_row, without_start};
use c_tree::typed::{CType, StaticPart, TStmt};
use c_tree::{FaultKind, Identifier, Initialiser};
use c_type_declarators::complete_row;
use c_type_initialisers::starts_row;
use c_type_rules::{copied, is_void};
use c_type_walk::{Around, Found, copied_text};
use c_typing::Filled;
use std::alloc::Global;
use word_ops::{Items, Memory, Text};

/// A declaration of a function (C11 6.7.6.3).
///
/// # Errors
///
/// `Memory` where memory is wanting.
pub(crate) fn function_row(
    alloc: Global,
    found: &mut Found,
    around: &Around<'_>,
    name: &Identifier,
    ctype: CType,
    start: Option<&Initialiser>,
) -> Result<Option<Items<TStmt>>, Memory>
    ensures { Walks (spec.function_row name.now ctype (starting (option_copied start.entry))) around.now found.old result found.new }
{
    let Ok(()) = linked_faults(alloc, found, around, name, false, &ctype) else {
        drop(ctype);
        return Err(Memory);
    };
    linked(alloc, found, &name.text, false, ctype)?;
    without_start(alloc, found, around, start)
}

/// A file-level object, or an extern.
///
/// # Errors
///
/// `Memory` where memory is wanting.
pub(crate) fn linked_row(
    alloc: Global,
    found: &mut Found,
    around: &Around<'_>,
    name: &Identifier,
    is_extern: bool,
    ctype: CType,
    start: Option<&Initialiser>,
) -> Result<Option<Items<TStmt>>, Memory>
    ensures { Walks (spec.linked_row name.now is_extern ctype (starting (option_copied start.entry))) around.now found.old result found.new }
{
    let Ok(told) = told_type(alloc, found, &name.text, &ctype) else {
        drop(ctype);
        return Err(Memory);
    };
    let Ok(()) = linked_faults(alloc, found, around, name, start.is_some(), &ctype) else {
        drop((told, ctype));
        return Err(Memory);
    };
    let Ok(()) = linked(alloc, found, &name.text, start.is_some(), ctype) else {
        drop(told);
        return Err(Memory);
    };
    match start {
        Some(start) if around.at_file_level => { started(alloc, found, around, name, told, start) }
        Some(_) => {
            drop(told);
            without_start(alloc, found, around, start)
        }
        None => unstarted(alloc, found, around, name, is_extern, told),
    }
}

/// The type that all declarations of a name tell, with one more of this type.
fn told_type(alloc: Global, found: &Found, name: &Text, ctype: &CType) -> Result<CType, Memory>
    ensures { IfOk result (λ told. told ≡ spec.composed ctype.now (scopes.latest found.now.state.linked name.now)) }
{
    composed(alloc, copied(alloc, ctype)?, found.linkage(name))
}

/// Without an initialiser: an extern object may be incomplete, but not of type `void` (C11 6.9.2p2, p3).
fn unstarted(
    alloc: Global,
    found: &mut Found,
    around: &Around<'_>,
    name: &Identifier,
    is_extern: bool,
    ctype: CType,
) -> Result<Option<Items<TStmt>>, Memory>
    ensures { Walks (spec.linked_start name.now is_extern None ctype) around.now found.old result found.new }
{
    if is_extern {
        let is_nothing = is_void(&ctype);
        drop(ctype);
        if is_nothing {
            return found.tell(around, FaultKind::Incomplete, name.place);
        }
        return Ok(Some(Items::new(alloc)));
    }
    let Some(complete) = complete_row(found, around, name.place, ctype)? else {
        return Ok(None);
    };
    drop(complete);
    Ok(Some(Items::new(alloc)))
}

/// With an initialiser, which defines the object (C11 6.9.2p1).
fn started(
    alloc: Global,
    found: &mut Found,
    around: &Around<'_>,
    name: &Identifier,
    ctype: CType,
    start: &Initialiser,
) -> Result<Option<Items<TStmt>>, Memory>
    ensures { Walks (spec.linked_start name.now false (Some (initialiser_typing start.now)) ctype) around.now found.old result found.new }
{
    let Some(ctype) = fillable_row(found, around, name.place, ctype)? else {
        return Ok(None);
    };
    let Ok(filled) = filled_row(alloc, found, around, start, &ctype) else {
        drop(ctype);
        return Err(Memory);
    };
    let Some(filled) = filled else {
        drop(ctype);
        return Ok(None);
    };
    linked_filled(alloc, found, around, name, ctype, filled)
}

/// What an initialiser fills, and what stands in it as the program begins.
fn linked_filled(
    alloc: Global,
    found: &mut Found,
    around: &Around<'_>,
    name: &Identifier,
    ctype: CType,
    filled: Filled,
) -> Result<Option<Items<TStmt>>, Memory>
    ensures { Walks (spec.linked_filled name.now ctype filled) around.now found.old result found.new }
{
    let Ok(ctype) = counted(alloc, ctype, filled.count) else {
        drop(filled);
        return Err(Memory);
    };
    let Ok(sized) = sized_row(alloc, found, around, name.place, &ctype) else {
        drop((ctype, filled));
        return Err(Memory);
    };
    let Ok(()) = linked(alloc, found, &name.text, true, ctype) else {
        drop((sized, filled));
        return Err(Memory);
    };
    let Ok(parts) = starts_row(alloc, found, around, filled.leaves) else {
        drop(sized);
        return Err(Memory);
    };
    start_set(alloc, found, around, name, sized, parts)
}

/// Keeps what stands in an object as the program begins, where it has a size and that is known.
fn start_set(
    alloc: Global,
    found: &mut Found,
    around: &Around<'_>,
    name: &Identifier,
    sized: Option<CType>,
    parts: Option<Items<StaticPart>>,
) -> Result<Option<Items<TStmt>>, Memory>
    ensures { Walks (scopes.both_asked sized parts (λ w parts. spec.start_set name.now.text parts)) around.now found.old result found.new }
{
    let _around = around;
    let Some(sized) = sized else {
        drop(parts);
        return Ok(None);
    };
    drop(sized);
    let Some(parts) = parts else {
        return Ok(None);
    };
    let Ok(text) = copied_text(alloc, &name.text) else {
        drop(parts);
        return Err(Memory);
    };
    found.state.starts.insert(text, parts)?;
    Ok(Some(Items::new(alloc)))
}
