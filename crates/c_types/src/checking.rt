//! The call.
//! Walks over a unit, by `unit`, and tells the first of its faults or gives its typed tree.

ghost use Rattle.c_tree.specs.Levelled.{IsUnit};
ghost use Rattle.c_types.specs.Check.{Checked};
ghost use Rattle.c_typing.specs.Types as types;
ghost use Rattle.c_typing.specs.Units as units;
ghost use Rattle.std.specs.Prelude.{◌≡◌, [], map};

use crate::first::first_told;
use crate::unit::{
    around_unit, defined_functions, file_objects, number_of_main, outers_row, typed_unit,
};
use c_tree::typed::{Base, CType, Typed};
use c_tree::{FaultKind, Pos, Unit};
use c_type_rules::plain;
use c_type_walk::Found;
use indexed_list::IndexedList;
use std::alloc::Global;
use thiserror::Error;
use word_ops::{Memory, Text};

/// Why a unit has no typed tree.
#[derive(Debug, Drop, Error)]
pub enum CheckFault {
    /// The types have this fault, at this place.
    #[error("types")]
    Fault(FaultKind, Pos),
    /// Memory is wanting.
    #[error("out of memory")]
    Memory,
}

impl From<Memory> for CheckFault {
    ghost use Rattle.std.specs.Prelude.{◌≡◌};
    ghost use Rattle.c_types.specs.declared.checking.CheckFault.TheVariants as refused;

    ghost from_gives = { λ _ fault. fault ≡ refused.Memory };

    fn from(_wanting: Memory) -> CheckFault {
        CheckFault::Memory
    }
}

/// The typed tree of a unit (C11 6.9), exactly where it has no fault, or the first of its faults by place, and at one place
/// by kind.
///
/// The unit is one that the grammar has, as `parse` gives it.
///
/// # Errors
///
/// `Fault` with the first fault exactly where the unit has one, and `Memory` where memory is wanting, or a number of
/// objects or functions is 2^32.
pub fn check(alloc: Global, unit: &Unit) -> Result<Typed, CheckFault>
    requires { IsUnit unit.now }
    ensures { Checked unit.now result }
{
    let list = unit.items.as_slice();
    let functions = defined_functions(alloc, list)?;
    let Ok(objects) = file_objects(alloc, list) else {
        drop(functions);
        return Err(CheckFault::Memory);
    };
    let void = plain(alloc, Base::Void);
    let checked = check_defining(alloc, unit, &functions, &objects, &void);
    drop(functions);
    drop(objects);
    drop(void);
    checked
}

/// Checks a unit that defines these functions and file-level objects.
fn check_defining(
    alloc: Global,
    unit: &Unit,
    functions: &IndexedList<Text>,
    objects: &IndexedList<Text>,
    void: &CType,
) -> Result<Typed, CheckFault>
    requires unit { IsUnit unit.now }
    requires functions { functions.now ≡ units.defined_functions (map units.outer_of unit.now.items) }
    requires objects { objects.now ≡ units.file_objects units.no_function [] (map units.outer_of unit.now.items) }
    requires void { void.now ≡ types.void }
    ensures { Checked unit.now result }
{
    let around = around_unit(functions, objects, void);
    let main = number_of_main(alloc, functions)?;
    let mut found = Found::new(alloc);
    let Ok(made) = outers_row(alloc, &mut found, &around, unit.items.as_slice()) else {
        drop(found);
        return Err(CheckFault::Memory);
    };
    let Ok(()) = found.tell_if(main.is_none(), FaultKind::NoMain, unit.end) else {
        drop((found, made));
        return Err(CheckFault::Memory);
    };
    if let Some(fault) = first_told(&found) {
        drop((found, made));
        return Err(CheckFault::Fault(fault.kind, fault.place));
    }
    let Some(made) = made else {
        unreachable!();
    };
    let Found { faults, state } = found;
    drop(faults);
    Ok(typed_unit(alloc, state, objects, made, main.unwrap_or(0))?)
}
