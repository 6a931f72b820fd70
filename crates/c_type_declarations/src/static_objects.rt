//! Declarations of static objects of functions (C11 6.2.4p3).
//! Rows from the type of a declarator on; its initialiser is walked over by c_type_initialisers.

ghost use Rattle.std.specs.Prelude.{◌≡◌, ◌++◌, ◌∷◌, [], IfOk, OnOk, Some, None, is_some, slice_set};
ghost use Rattle.std.specs.Option.{option_copied};
ghost use Rattle.c_typing.specs.Declarations as spec;
ghost use Rattle.c_typing.specs.Initialisers.{initialiser_typing};
ghost use Rattle.c_typing.specs.Scopes as scopes;
ghost use Rattle.c_tree.specs.declared.refusal.FaultKind.TheVariants as kind;
ghost use Rattle.c_typing.specs.declared.scope.Meaning.TheVariants as meaning;
ghost use Rattle.c_type_walk.specs.Walks.{Walks, fixed};
ghost use Rattle.c_type_declarations.specs.Slots.{static_place, static_declared};
ghost use Rattle.c_type_declarations.specs.Starting.{starting};

use crate::objects::{counted, sized_row, static_object};
use crate::starts::{completed_row, fillable_row, filled_row};
use c_tree::typed::{CType, StaticPart, TStmt};
use c_tree::{FaultKind, Identifier, Initialiser};
use c_type_initialisers::starts_row;
use c_type_rules::copied;
use c_type_walk::{Around, Found};
use c_typing::{Filled, Meaning};
use std::alloc::Global;
use word_ops::{Items, Memory, Text};

/// Which static object of the unit one is.
#[derive(Clone, Copy)]
struct StaticPlace {
    /// its number in the unit
    number: u32,
    /// its place among those of functions
    index: usize,
}

/// A static object of a function: it is numbered at its declaration, before the strings of its initialiser.
///
/// # Errors
///
/// `Memory` where memory is wanting, or a number is 2^32.
pub(crate) fn static_row(
    alloc: Global,
    found: &mut Found,
    around: &Around<'_>,
    name: &Identifier,
    ctype: CType,
    start: Option<&Initialiser>,
) -> Result<Option<Items<TStmt>>, Memory>
    ensures { Walks (spec.static_row name.now ctype (starting (option_copied start.entry))) around.now found.old result found.new }
{
    let Ok(place) = static_begun(alloc, found, around, name, &ctype) else {
        drop(ctype);
        return Err(Memory);
    };
    match start {
        None => unstarted(alloc, found, around, name, place, ctype),
        Some(start) => started(alloc, found, around, name, place, ctype, start),
    }
}

/// Declares a static object, in which nothing stands yet.
fn static_begun(
    alloc: Global,
    found: &mut Found,
    around: &Around<'_>,
    name: &Identifier,
    ctype: &CType,
) -> Result<StaticPlace, Memory>
    ensures place { IfOk result (λ p. p ≡ static_place (fixed around.now) found.old.state) }
    ensures faults { OnOk result (found.new.faults ≡ found.old.faults ++ scopes.fault_if (is_some (scopes.own_meaning (fixed around.now) found.old.state name.now.text)) kind.Redeclared name.now.place) }
    ensures state { OnOk result (found.new.state ≡ static_declared (static_place (fixed around.now) found.old.state) name.now.text ctype.now found.old.state) }
{
    let place = next_static(found, around)?;
    let stood = found.own_meaning(around, &name.text).is_some();
    found.tell_if(stood, FaultKind::Redeclared, name.place)?;
    let again = copied(alloc, ctype)?;
    let object = static_object(&found.state.structs, again, Items::new(alloc));
    found.state.statics.push(object)?;
    declare_static(alloc, found, &name.text, ctype, place.number)?;
    Ok(place)
}

/// The number of the next static object behind the file-level objects.
fn next_static(found: &Found, around: &Around<'_>) -> Result<StaticPlace, Memory>
    ensures { IfOk result (λ p. p ≡ static_place (fixed around.now) found.now.state) }
{
    let index = found.state.statics.len();
    let Some(number) = around.objects.len().checked_add(index) else {
        return Err(Memory);
    };
    let number = u32::try_from(number).map_err(|_| Memory)?;
    Ok(StaticPlace { number, index })
}

/// An object without an initialiser, whose type is complete (C11 6.7p7).
fn unstarted(
    alloc: Global,
    found: &mut Found,
    around: &Around<'_>,
    name: &Identifier,
    place: StaticPlace,
    ctype: CType,
) -> Result<Option<Items<TStmt>>, Memory>
    ensures { Walks (spec.static_start name.now place.number place.index None ctype) around.now found.old result found.new }
{
    let Ok(complete) = completed_row(alloc, found, around, name.place, &ctype) else {
        drop(ctype);
        return Err(Memory);
    };
    let Some(complete) = complete else {
        drop(ctype);
        return Ok(None);
    };
    drop(complete);
    Ok(Some(static_set(alloc, found, place, ctype, Items::new(alloc))))
}

/// An object with an initialiser.
fn started(
    alloc: Global,
    found: &mut Found,
    around: &Around<'_>,
    name: &Identifier,
    place: StaticPlace,
    ctype: CType,
    start: &Initialiser,
) -> Result<Option<Items<TStmt>>, Memory>
    ensures { Walks (spec.static_start name.now place.number place.index (Some (initialiser_typing start.now)) ctype) around.now found.old result found.new }
{
    let Some(ctype) = fillable_row(found, around, name.place, ctype)? else {
        return Ok(None);
    };
    let Ok(filled) = filled_row(alloc, found, around, start, &ctype) else {
        drop(ctype);
        return Err(Memory);
    };
    let Some(filled) = filled else {
        drop(ctype);
        return Ok(None);
    };
    static_filled(alloc, found, around, name, place, ctype, filled)
}

/// What an initialiser fills, and what stands in it as the program begins.
fn static_filled(
    alloc: Global,
    found: &mut Found,
    around: &Around<'_>,
    name: &Identifier,
    place: StaticPlace,
    ctype: CType,
    filled: Filled,
) -> Result<Option<Items<TStmt>>, Memory>
    ensures { Walks (spec.static_filled name.now ctype place.number place.index filled) around.now found.old result found.new }
{
    let Ok(ctype) = counted(alloc, ctype, filled.count) else {
        drop(filled);
        return Err(Memory);
    };
    let Ok(sized) = sized_row(alloc, found, around, name.place, &ctype) else {
        drop((ctype, filled));
        return Err(Memory);
    };
    let Ok(()) = declare_static(alloc, found, &name.text, &ctype, place.number) else {
        drop((ctype, filled, sized));
        return Err(Memory);
    };
    let Ok(parts) = starts_row(alloc, found, around, filled.leaves) else {
        drop((ctype, sized));
        return Err(Memory);
    };
    let Some(sized) = sized else {
        drop((ctype, parts));
        return Ok(None);
    };
    drop(sized);
    let Some(parts) = parts else {
        drop(ctype);
        return Ok(None);
    };
    Ok(Some(static_set(alloc, found, place, ctype, parts)))
}

/// Makes a static object visible.
fn declare_static(
    alloc: Global,
    found: &mut Found,
    name: &Text,
    ctype: &CType,
    number: u32,
) -> Result<(), Memory>
    ensures faults { found.new.faults ≡ found.old.faults }
    ensures state { OnOk result (found.new.state ≡ record found.old.state { names = found.old.state.names ++ (name.now, meaning.Static ctype.now number) ∷ [] }) }
{
    let meaning = Meaning::Static(copied(alloc, ctype)?, number);
    found.declare(alloc, name, meaning)
}

/// Keeps what is known of a static object at its end. Takes no memory.
fn static_set(
    alloc: Global,
    found: &mut Found,
    place: StaticPlace,
    ctype: CType,
    parts: Items<StaticPart>,
) -> Items<TStmt>
    ensures given { result ≡ [] }
    ensures faults { found.new.faults ≡ found.old.faults }
    ensures state { found.new.state ≡ record found.old.state { statics = slice_set found.old.state.statics place.index (spec.static_object found.old.state.structs ctype parts) } }
{
    let object = static_object(&found.state.structs, ctype, parts);
    if place.index < found.state.statics.len() {
        found.state.statics.set(place.index, object);
    } else {
        drop(object);
    }
    Items::new(alloc)
}
