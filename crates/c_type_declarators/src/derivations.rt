//! What the parts of a declarator make of a type (C11 6.7.6).
//! Rows: told the parts, they apply them one after the other.

ghost use Rattle.std.specs.List.{list_all};
ghost use Rattle.c_typing.specs.declared.declarator.Part.TheVariants as part;
ghost use Rattle.std.specs.Prelude.{◌≡◌, ◌++◌, nat_lt, IfOk, length, map, reverse};
ghost use Rattle.c_typing.specs.Declarators as spec;
ghost use Rattle.c_typing.specs.OfTrees as trees;
ghost use Rattle.c_typing.specs.Types as types;
ghost use Rattle.c_layout.specs.Sizes as sizes;
ghost use Rattle.c_type_walk.specs.Walks.{Walks};
ghost use Rattle.c_type_declarators.specs.Derivations.{have_too_many};

use c_layout::size;
use c_tree::typed::{CType, Derived};
use c_tree::{FaultKind, Pointer, Pos};
use c_type_rules::{copied, derived_from, is_array, is_function, pointer_to, unqualified};
use c_type_walk::{Around, Found};
use c_typing::{Parameter, Part};
use std::alloc::Global;
use word_ops::{Items, Memory};

/// The most bytes that a type may have.
pub(crate) const MOST_BYTES: u64 = 1 << 24;

/// The parts that the pointers of a declarator are (C11 6.7.6.1).
///
/// # Errors
///
/// `Memory` where memory is wanting.
pub fn pointing(alloc: Global, pointers: &[Pointer]) -> Result<Items<Part>, Memory>
    ensures { IfOk result (λ parts. parts ≡ trees.pointing pointers.now) }
{
    let mut parts = Items::new(alloc);
    for pointer in pointers {
        parts.push(Part::Pointing(is_constant(pointer)))?;
    }
    Ok(parts)
}

/// Whether `const` stands behind the star of a pointer (C11 6.7.6.1p1).
fn is_constant(pointer: &Pointer) -> bool
    ensures { result ≡ nat_lt 0 (length pointer.now.constants) }
{
    !pointer.constants.is_empty()
}

/// The parts of a declarator in the order in which they apply to a type: its pointers, what stands behind its middle from
/// the last to the first, and what the middle is made of.
///
/// # Errors
///
/// `Memory` where memory is wanting.
pub fn declarator_parts(
    alloc: Global,
    pointers: &[Pointer],
    mut suffixes: Items<Part>,
    inner: Items<Part>,
) -> Result<Items<Part>, Memory>
    ensures { IfOk result (λ parts. parts ≡ trees.pointing pointers.now ++ (reverse suffixes ++ inner)) }
{
    let mut parts = pointing(alloc, pointers)?;
    while let Some(part) = suffixes.pop() {
        parts.push(part)?;
    }
    parts.append(inner)?;
    Ok(parts)
}

/// The part that brackets of an array are, where their number of elements has no fault, and else.
pub fn array_part(count: Option<u64>) -> Part
    ensures { result ≡ spec.array_part count }
{
    match count {
        Some(count) => Part::Arraying(Some(count)),
        None => Part::SomeArray,
    }
}

/// The part that parameters make, where there is no fault in them, and else.
pub fn function_part(parameters: Option<Items<Parameter>>) -> Part
    ensures { result ≡ spec.function_part parameters }
{
    match parameters {
        Some(parameters) => Part::Listing(parameters),
        None => Part::SomeFunction,
    }
}

/// What the parts of a declarator make of a type, each of what the one before it makes; faults are told at the place that
/// stands for the name (C11 6.7.6p4). A part in which a fault stands is an array or a function all the same; but then the
/// type of the whole is not known.
///
/// # Errors
///
/// `Memory` where memory is wanting.
pub fn derive(
    alloc: Global,
    found: &mut Found,
    around: &Around<'_>,
    at: Pos,
    parts: &[Part],
    ctype: CType,
) -> Result<Option<CType>, Memory>
    ensures { Walks (spec.derive at parts.now ctype) around.now found.old result found.new }
{
    let derived = derive_all(alloc, found, around, at, parts, ctype)?;
    if are_settled(parts) {
        return Ok(derived);
    }
    drop(derived);
    Ok(None)
}

/// Whether no fault stands in any of these parts.
fn are_settled(parts: &[Part]) -> bool
    ensures { result ≡ list_all spec.is_settled parts.now }
{
    parts.iter().all(is_settled)
}

fn is_settled(part: &Part) -> bool
    ensures { result ≡ spec.is_settled part.now }
{
    match part {
        Part::Pointing(_) | Part::Arraying(_) | Part::Listing(_) => true,
        Part::SomeArray | Part::SomeFunction => false,
    }
}

fn derive_all(
    alloc: Global,
    found: &mut Found,
    around: &Around<'_>,
    at: Pos,
    parts: &[Part],
    ctype: CType,
) -> Result<Option<CType>, Memory>
    ensures { Walks (spec.derive_all at parts.now ctype) around.now found.old result found.new }
{
    let mut derived = ctype;
    for part in parts {
        let Some(next) = derive_one(alloc, found, around, at, part, derived)? else {
            return Ok(None);
        };
        derived = next;
    }
    Ok(Some(derived))
}

/// What one part makes of a type: a pointer, an array, or a function that gives it.
fn derive_one(
    alloc: Global,
    found: &mut Found,
    around: &Around<'_>,
    at: Pos,
    part: &Part,
    ctype: CType,
) -> Result<Option<CType>, Memory>
    ensures { Walks (spec.derive_one at part.now ctype) around.now found.old result found.new }
{
    match part {
        Part::Pointing(constant) => pointer_row(found, around, at, *constant, ctype),
        Part::Arraying(count) => array_row(found, around, at, *count, ctype),
        Part::SomeArray => array_row(found, around, at, None, ctype),
        Part::Listing(parameters) => {
            let Ok(parameters) = parameter_types(alloc, parameters.as_slice()) else {
                drop(ctype);
                return Err(Memory);
            };
            function_row(found, around, at, parameters, ctype)
        }
        Part::SomeFunction => function_row(found, around, at, Items::new(alloc), ctype),
    }
}

/// A pointer. Of functions there are neither pointers nor arrays in the profile.
fn pointer_row(
    found: &mut Found,
    around: &Around<'_>,
    at: Pos,
    constant: bool,
    target: CType,
) -> Result<Option<CType>, Memory>
    ensures { Walks (spec.derive_one at (part.Pointing constant) target) around.now found.old result found.new }
{
    if is_function(&target) {
        return found.tell(around, FaultKind::FunctionUse, at);
    }
    Ok(Some(pointer_to(constant, target)?))
}

/// An array, whose elements are no functions (C11 6.7.6.2p1).
fn array_row(
    found: &mut Found,
    around: &Around<'_>,
    at: Pos,
    count: Option<u64>,
    element: CType,
) -> Result<Option<CType>, Memory>
    ensures { Walks (spec.array_row at count element) around.now found.old result found.new }
{
    if is_function(&element) {
        return found.tell(around, FaultKind::FunctionUse, at);
    }
    array_of(found, around, at, count, element)
}

/// A function, which gives no function and no array (C11 6.7.6.3p1).
fn function_row(
    found: &mut Found,
    around: &Around<'_>,
    at: Pos,
    parameters: Items<CType>,
    value: CType,
) -> Result<Option<CType>, Memory>
    ensures { Walks (spec.function_row at parameters value) around.now found.old result found.new }
{
    if is_function(&value) || is_array(&value) {
        drop(parameters);
        return found.tell(around, FaultKind::FunctionUse, at);
    }
    Ok(Some(derived_from(value, Derived::Function(parameters))?))
}

/// An array of so many elements, or of a number that is not told (C11 6.7.6.2p1): their type is complete, and the whole
/// has at most 2^24 bytes.
fn array_of(
    found: &mut Found,
    around: &Around<'_>,
    at: Pos,
    count: Option<u64>,
    element: CType,
) -> Result<Option<CType>, Memory>
    ensures { Walks (spec.array_if at element count (sizes.size_of found.old.state.structs element)) around.now found.old result found.new }
{
    let Some(bytes) = size(&element, &found.state.structs) else {
        return found.tell(around, FaultKind::Incomplete, at);
    };
    if is_too_large(count, bytes) {
        return found.tell(around, FaultKind::TooLarge, at);
    }
    Ok(Some(derived_from(element, Derived::Array(count))?))
}

/// Whether so many elements of so many bytes have more bytes than a type may have.
fn is_too_large(count: Option<u64>, bytes: u64) -> bool
    ensures { result ≡ have_too_many count bytes }
{
    match count {
        Some(count) => count.saturating_mul(bytes) > MOST_BYTES,
        None => false,
    }
}

/// The types of parameters in the type of their function, which are unqualified (C11 6.7.6.3p15).
fn parameter_types(alloc: Global, parameters: &[Parameter]) -> Result<Items<CType>, Memory>
    ensures { IfOk result (λ list. list ≡ map (λ q. types.unqualified q.ctype) parameters.now) }
{
    let mut list = Items::new(alloc);
    for parameter in parameters {
        list.push(unqualified(copied(alloc, &parameter.ctype)?))?;
    }
    Ok(list)
}

/// A type that an object may have: it is complete (C11 6.7p7).
///
/// # Errors
///
/// `Memory` where memory is wanting.
pub fn complete_row(
    found: &mut Found,
    around: &Around<'_>,
    at: Pos,
    ctype: CType,
) -> Result<Option<CType>, Memory>
    ensures { Walks (spec.complete_row at ctype) around.now found.old result found.new }
{
    if size(&ctype, &found.state.structs).is_none() {
        return found.tell(around, FaultKind::Incomplete, at);
    }
    Ok(Some(ctype))
}

/// A type that a parameter may have: it is complete, and is told all the same where it is not (C11 6.7.6.3p4).
///
/// # Errors
///
/// `Memory` where memory is wanting.
pub(crate) fn complete_parameter(
    found: &mut Found,
    around: &Around<'_>,
    at: Pos,
    ctype: CType,
) -> Result<Option<CType>, Memory>
    ensures { Walks (spec.complete_parameter at ctype) around.now found.old result found.new }
{
    let _around = around;
    let incomplete = size(&ctype, &found.state.structs).is_none();
    let Ok(()) = found.tell_if(incomplete, FaultKind::Incomplete, at) else {
        drop(ctype);
        return Err(Memory);
    };
    Ok(Some(ctype))
}
