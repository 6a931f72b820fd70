//! Parameters (C11 6.7.6.3).
//! Rows: a parameter from its specifiers and its type, as adjusted.

ghost use Rattle.std.specs.Prelude.{◌≡◌, IfOk};
ghost use Rattle.std.specs.Option.{option_copied};
ghost use Rattle.c_typing.specs.Declarators as spec;
ghost use Rattle.c_typing.specs.OfTrees as trees;
ghost use Rattle.c_typing.specs.Types as types;
ghost use Rattle.c_type_walk.specs.Walks.{Walks};
ghost use Rattle.c_type_declarators.specs.Parameters as parameters;

use crate::derivations::complete_parameter;
use crate::names::copied_identifier;
use c_tree::typed::CType;
use c_tree::{FaultKind, Identifier, Pos, Storage};
use c_type_rules::{TypeShape, copied, pointer_to, shape};
use c_type_walk::{Around, Found};
use c_typing::{Basis, Meaning, Parameter};
use std::alloc::Global;
use word_ops::Memory;

/// Whether a storage word is `register` (C11 6.7.1p6).
pub fn is_register(storage: Option<Storage>) -> bool
    ensures { result ≡ spec.is_register storage }
{
    matches!(storage, Some(Storage::Register))
}

/// The specifiers of a parameter, among which no storage word stands but `register` (C11 6.7.6.3p2).
///
/// # Errors
///
/// `Memory` where memory for the fault is wanting.
pub fn parameter_basis(
    found: &mut Found,
    around: &Around<'_>,
    at: Pos,
    basis: Basis,
) -> Result<Option<Basis>, Memory>
    ensures { Walks (trees.parameter_basis at basis) around.now found.old result found.new }
{
    if basis.storage.is_some() && !is_register(basis.storage) {
        return found.tell(around, FaultKind::BadSpecifier, at);
    }
    Ok(Some(basis))
}

/// The type of a parameter as adjusted, which is complete, and is told all the same where it is not (C11 6.7.6.3p4, p7).
///
/// # Errors
///
/// `Memory` where memory is wanting.
pub fn adjusted_parameter(
    alloc: Global,
    found: &mut Found,
    around: &Around<'_>,
    at: Pos,
    ctype: CType,
) -> Result<Option<CType>, Memory>
    ensures { Walks (spec.complete_parameter at (spec.adjusted (types.shape ctype) ctype)) around.now found.old result found.new }
{
    let ctype = adjusted(alloc, ctype)?;
    complete_parameter(found, around, at, ctype)
}

/// A parameter of array type is a pointer to the elements (C11 6.7.6.3p7).
fn adjusted(alloc: Global, ctype: CType) -> Result<CType, Memory>
    ensures { IfOk result (λ t. t ≡ spec.adjusted (types.shape ctype) ctype) }
{
    let element = match shape(&ctype) {
        TypeShape::ArrayOf(_, element) => element.copied(alloc)?,
        _ => return Ok(ctype),
    };
    Ok(pointer_to(false, element)?)
}

/// Declares a parameter by its name, where it has one: an automatic object of this number (C11 6.2.1p4). The names of
/// parameters differ (C11 6.7p3).
///
/// # Errors
///
/// `Memory` where memory is wanting.
pub fn parameter_named(
    alloc: Global,
    found: &mut Found,
    around: &Around<'_>,
    name: Option<&Identifier>,
    number: u32,
    in_register: bool,
    ctype: CType,
) -> Result<Option<CType>, Memory>
    ensures { Walks (trees.parameter_named (option_copied name.entry) number in_register ctype) around.now found.old result found.new }
{
    match name {
        Some(name) => parameter_meant(alloc, found, around, name, number, in_register, ctype),
        None => Ok(Some(ctype)),
    }
}

fn parameter_meant(
    alloc: Global,
    found: &mut Found,
    around: &Around<'_>,
    name: &Identifier,
    number: u32,
    in_register: bool,
    ctype: CType,
) -> Result<Option<CType>, Memory>
    ensures { Walks (trees.parameter_meant name.now number in_register ctype) around.now found.old result found.new }
{
    let stood = found.own_meaning(around, &name.text).is_some();
    found.tell_if(stood, FaultKind::Redeclared, name.place)?;
    let meaning = Meaning::Automatic {
        ctype: copied(alloc, &ctype)?,
        place: number,
        number,
        in_register,
    };
    found.declare(alloc, &name.text, meaning)?;
    Ok(Some(ctype))
}

/// A parameter of this name and type, which is declared.
///
/// # Errors
///
/// `Memory` where memory is wanting.
pub fn parameter_given(
    alloc: Global,
    found: &mut Found,
    around: &Around<'_>,
    name: Option<&Identifier>,
    first: Pos,
    number: u32,
    in_register: bool,
    ctype: CType,
) -> Result<Option<Parameter>, Memory>
    ensures { Walks (parameters.parameter_given (option_copied name.entry) first number in_register ctype) around.now found.old result found.new }
{
    let Some(ctype) = parameter_named(alloc, found, around, name, number, in_register, ctype)?
    else {
        return Ok(None);
    };
    let name = match name {
        Some(name) => Some(copied_identifier(alloc, name)?),
        None => None,
    };
    Ok(Some(Parameter {
        name,
        first,
        ctype,
        in_register,
    }))
}
