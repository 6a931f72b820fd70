//! Declarations of automatic objects (C11 6.2.4p5).
//! Rows from the type of a declarator on; its initialiser is walked over by c_type_initialisers.

ghost use Rattle.std.specs.Prelude.{◌≡◌, ◌∷◌, [], ◌++◌, IfOk, OnOk, Some, None, is_some};
ghost use Rattle.std.specs.Option.{option_copied};
ghost use Rattle.c_typing.specs.Declarations as spec;
ghost use Rattle.c_typing.specs.Initialisers.{initialiser_typing};
ghost use Rattle.c_typing.specs.Scopes as scopes;
ghost use Rattle.c_tree.specs.declared.refusal.FaultKind.TheVariants as kind;
ghost use Rattle.c_type_walk.specs.Walks.{Walks, fixed};
ghost use Rattle.c_type_declarations.specs.Slots.{slot_at, automatic_at, initialised_at};
ghost use Rattle.c_type_declarations.specs.Starting.{starting};

use crate::made::one;
use crate::objects::{counted, sized_row};
use crate::starts::{completed_row, fillable_row, filled_row};
use c_tree::typed::{CType, TStmt};
use c_tree::{FaultKind, Identifier, Initialiser};
use c_type_initialisers::initialiser_row;
use c_type_rules::copied;
use c_type_walk::{Around, Found};
use c_typing::{Filled, Local, Meaning};
use std::alloc::Global;
use word_ops::{Items, Memory, Text};

/// The initial value of an object, as typed.
type InitialValue = c_tree::typed::Initialiser;

/// Where an automatic object stands.
#[derive(Clone, Copy)]
pub(crate) struct Slot {
    /// its place among those in scope
    place: u32,
    /// its number in the function
    number: u32,
    /// whether it is `register` (C11 6.7.1p6)
    in_register: bool,
}

/// An automatic object, which is visible from the end of its declarator on (C11 6.2.1p7).
///
/// # Errors
///
/// `Memory` where memory is wanting, or a number is 2^32.
pub(crate) fn automatic_row(
    alloc: Global,
    found: &mut Found,
    around: &Around<'_>,
    name: &Identifier,
    in_register: bool,
    ctype: CType,
    start: Option<&Initialiser>,
) -> Result<Option<Items<TStmt>>, Memory>
    ensures { Walks (spec.automatic_row name.now in_register ctype (starting (option_copied start.entry))) around.now found.old result found.new }
{
    let Ok(slot) = automatic_begun(alloc, found, around, name, in_register, &ctype) else {
        drop(ctype);
        return Err(Memory);
    };
    match start {
        None => unstarted(alloc, found, around, name, slot, ctype),
        Some(start) => started(alloc, found, around, name, slot, ctype, start),
    }
}

/// Declares an automatic object, which stands at the next place.
fn automatic_begun(
    alloc: Global,
    found: &mut Found,
    around: &Around<'_>,
    name: &Identifier,
    in_register: bool,
    ctype: &CType,
) -> Result<Slot, Memory>
    ensures slot { IfOk result (λ slot. slot ≡ slot_at (fixed around.now) found.old.state in_register) }
    ensures faults { OnOk result (found.new.faults ≡ found.old.faults ++ scopes.fault_if (is_some (scopes.own_meaning (fixed around.now) found.old.state name.now.text)) kind.Redeclared name.now.place) }
    ensures state { OnOk result (found.new.state ≡ record found.old.state { names = found.old.state.names ++ (name.now.text, automatic_at (slot_at (fixed around.now) found.old.state in_register) ctype.now) ∷ [] }) }
{
    let slot = next_slot(found, around, in_register)?;
    let stood = found.own_meaning(around, &name.text).is_some();
    found.tell_if(stood, FaultKind::Redeclared, name.place)?;
    declare_automatic(alloc, found, &name.text, ctype, slot)?;
    Ok(slot)
}

/// Where the next object of the present block stands.
fn next_slot(found: &Found, around: &Around<'_>, in_register: bool) -> Result<Slot, Memory>
    ensures { IfOk result (λ slot. slot ≡ slot_at (fixed around.now) found.now.state in_register) }
{
    let before = u32::try_from(found.state.own.len()).map_err(|_| Memory)?;
    let Some(place) = around.own_from.checked_add(before) else {
        return Err(Memory);
    };
    let Some(number) = around.numbers_from.checked_add(before) else {
        return Err(Memory);
    };
    Ok(Slot {
        place,
        number,
        in_register,
    })
}

fn declare_automatic(
    alloc: Global,
    found: &mut Found,
    name: &Text,
    ctype: &CType,
    slot: Slot,
) -> Result<(), Memory>
    ensures faults { found.new.faults ≡ found.old.faults }
    ensures state { OnOk result (found.new.state ≡ record found.old.state { names = found.old.state.names ++ (name.now, automatic_at slot ctype.now) ∷ [] }) }
{
    let meaning = Meaning::Automatic {
        ctype: copied(alloc, ctype)?,
        place: slot.place,
        number: slot.number,
        in_register: slot.in_register,
    };
    found.declare(alloc, name, meaning)
}

/// An object without an initialiser, whose type is complete (C11 6.7p7).
fn unstarted(
    alloc: Global,
    found: &mut Found,
    around: &Around<'_>,
    name: &Identifier,
    slot: Slot,
    ctype: CType,
) -> Result<Option<Items<TStmt>>, Memory>
    ensures { Walks (spec.automatic_start name.now slot.place slot.number slot.in_register None ctype) around.now found.old result found.new }
{
    let Ok(complete) = completed_row(alloc, found, around, name.place, &ctype) else {
        drop(ctype);
        return Err(Memory);
    };
    if keep_local(found, ctype, slot).is_err() {
        drop(complete);
        return Err(Memory);
    }
    let Some(complete) = complete else {
        return Ok(None);
    };
    drop(complete);
    Ok(Some(Items::new(alloc)))
}

/// An object with an initialiser.
fn started(
    alloc: Global,
    found: &mut Found,
    around: &Around<'_>,
    name: &Identifier,
    slot: Slot,
    ctype: CType,
    start: &Initialiser,
) -> Result<Option<Items<TStmt>>, Memory>
    ensures { Walks (spec.automatic_start name.now slot.place slot.number slot.in_register (Some (initialiser_typing start.now)) ctype) around.now found.old result found.new }
{
    let Some(ctype) = fillable_row(found, around, name.place, ctype)? else {
        return Ok(None);
    };
    let Ok(filled) = filled_row(alloc, found, around, start, &ctype) else {
        drop(ctype);
        return Err(Memory);
    };
    let Some(filled) = filled else {
        drop(ctype);
        return Ok(None);
    };
    automatic_filled(alloc, found, around, name, slot, ctype, filled)
}

/// What an initialiser fills: an array without a number of elements is declared again with as many as it tells.
fn automatic_filled(
    alloc: Global,
    found: &mut Found,
    around: &Around<'_>,
    name: &Identifier,
    slot: Slot,
    ctype: CType,
    filled: Filled,
) -> Result<Option<Items<TStmt>>, Memory>
    ensures { Walks (spec.automatic_filled name.now ctype slot.place slot.number slot.in_register filled) around.now found.old result found.new }
{
    let Ok(ctype) = counted(alloc, ctype, filled.count) else {
        drop(filled);
        return Err(Memory);
    };
    let Ok(sized) = sized_row(alloc, found, around, name.place, &ctype) else {
        drop((ctype, filled));
        return Err(Memory);
    };
    let Ok(()) = declare_automatic(alloc, found, &name.text, &ctype, slot) else {
        drop((ctype, filled, sized));
        return Err(Memory);
    };
    let Ok(initial) = initialiser_row(alloc, found, around, &ctype, filled.leaves) else {
        drop((ctype, sized));
        return Err(Memory);
    };
    let Ok(()) = keep_local(found, ctype, slot) else {
        drop((sized, initial));
        return Err(Memory);
    };
    initialised(alloc, slot, sized, initial)
}

/// The statement that gives an object its initial value, where it has a size and a value.
fn initialised(
    alloc: Global,
    slot: Slot,
    sized: Option<CType>,
    initial: Option<InitialValue>,
) -> Result<Option<Items<TStmt>>, Memory>
    ensures { IfOk result (λ made. made ≡ initialised_at slot.place sized initial) }
{
    let Some(sized) = sized else {
        drop(initial);
        return Ok(None);
    };
    drop(sized);
    let Some(initial) = initial else {
        return Ok(None);
    };
    Ok(Some(one(alloc, TStmt::Initialise(slot.place, initial))?))
}

/// Keeps an object as one of the present block.
fn keep_local(found: &mut Found, ctype: CType, slot: Slot) -> Result<(), Memory>
    ensures faults { found.new.faults ≡ found.old.faults }
    ensures state { OnOk result (found.new.state ≡ record found.old.state { own = found.old.state.own ++ record { ctype = ctype; number = slot.number } ∷ [] }) }
{
    let local = Local {
        ctype,
        number: slot.number,
    };
    found.state.own.push(local)?;
    Ok(())
}
