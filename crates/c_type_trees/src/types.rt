//! Specifiers, declarators and members, from what the walks of their parts gave: nothing is asked of what a fault stands in.
//! No walk: each hands on to a row of c_type_declarators.

ghost use Rattle.std.specs.Prelude.{◌≡◌, ◌&&◌, ◌++◌, ◌∷◌, [], true, not, Some, IfOk, is_some};
ghost use Rattle.std.specs.Option.{option_copied, option_map};
ghost use Rattle.c_typing.specs.declared.declarator.Part.TheVariants as part;
ghost use Rattle.c_typing.specs.Declarators as spec;
ghost use Rattle.c_typing.specs.OfTrees as trees;
ghost use Rattle.c_typing.specs.Scopes as scopes;
ghost use Rattle.c_typing.specs.Types as types;
ghost use Rattle.c_type_walk.specs.Walks.{Walks};
ghost use Rattle.c_type_declarators.specs.Parameters.{parameter_given};
ghost use Rattle.c_type_declarators.specs.Specifiers.{parts_of};
ghost use Rattle.c_type_trees.specs.Lists as lists;
ghost use Rattle.c_type_trees.specs.Sequences as sequences;

use crate::held::released;
use c_tree::typed::CType;
use c_tree::{Identifier, Pointer, Pos, Storage, TypeWord};
use c_type_declarators::{
    SpecifierParts, adjusted_parameter, array_part, count_row, declarator_parts, derive,
    is_register, members_row, parameter_basis, parameter_given,
};
use c_type_rules::copied;
use c_type_walk::{Around, Found};
use c_typing::{Basis, Operand, Parameter, Part};
use std::alloc::Global;
use word_ops::{Boxed, Items, Memory};

/// A member's name, and its type, where no fault stands in that.
pub(crate) type NamedMember = (Identifier, Option<CType>);

// ---- specifiers

/// A storage word more (C11 6.7.1).
pub(crate) fn with_storage(
    mut parts: SpecifierParts,
    storage: Storage,
) -> Result<Option<SpecifierParts>, Memory>
    ensures { IfOk result (λ r. option_map parts_of r ≡ Some (record (parts_of parts) { storages = (parts_of parts).storages ++ storage ∷ [] })) }
{
    or_drop!(parts.add_storage(storage), parts);
    Ok(Some(parts))
}

/// `const` (C11 6.7.3).
pub(crate) fn with_constant(mut parts: SpecifierParts) -> Option<SpecifierParts>
    ensures { option_map parts_of result ≡ Some (record (parts_of parts) { constant = true }) }
{
    parts.add_constant();
    Some(parts)
}

/// A word more that names a type (C11 6.7.2).
pub(crate) fn with_word(
    mut parts: SpecifierParts,
    word: TypeWord,
) -> Result<Option<SpecifierParts>, Memory>
    ensures { IfOk result (λ r. option_map parts_of r ≡ Some (record (parts_of parts) { words = (parts_of parts).words ++ word ∷ [] })) }
{
    or_drop!(parts.add_word(word), parts);
    Ok(Some(parts))
}

/// A type more, unless a fault stands in it.
pub(crate) fn with_type(
    mut parts: SpecifierParts,
    ctype: Option<CType>,
) -> Result<Option<SpecifierParts>, Memory>
    ensures { IfOk result (λ r. option_map parts_of r ≡ Some (spec.with_type (parts_of parts) ctype)) }
{
    or_drop!(parts.add_type(ctype), parts);
    Ok(Some(parts))
}

/// The type that specifiers name, without their storage word.
pub(crate) fn basis_type(basis: Option<Basis>) -> Option<CType>
    ensures { result ≡ option_map spec.basis_type basis }
{
    match basis {
        Some(basis) => Some(basis.ctype),
        None => None,
    }
}

/// The same as a type of its own, for one of several declarators.
pub(crate) fn copied_type(alloc: Global, basis: &Option<Basis>) -> Result<Option<CType>, Memory>
    ensures { IfOk result (λ t. t ≡ option_map spec.basis_type basis.now) }
{
    match basis {
        Some(basis) => Ok(Some(copied(alloc, &basis.ctype)?)),
        None => Ok(None),
    }
}

// ---- declarators

/// What the derivations of a declarator make of a type (C11 6.7.6p4).
#[inline(never)]
pub(crate) fn derive_if_both(
    alloc: Global,
    found: &mut Found,
    around: &Around<'_>,
    place: Pos,
    parts: Option<Items<Part>>,
    basis: Option<CType>,
) -> Result<Option<CType>, Memory>
    ensures { Walks (scopes.both_asked parts basis (spec.derive place)) around.now found.old result found.new }
{
    let parts = some_or_drop!(parts, basis);
    let basis = some_or_drop!(basis, parts);
    let derived = derive(alloc, found, around, place, parts.as_slice(), basis);
    drop(parts);
    derived
}

/// Whether the parameters of the part beside the name are those of a definition, where that part stands in the declarator's middle.
pub(crate) fn defines_inside(makes: Option<bool>, defining: bool) -> bool
    ensures { result ≡ (is_some makes && defining) }
{
    makes.is_some() && defining
}

/// The same where it stands beside that middle.
pub(crate) fn defines_beside(makes: Option<bool>, defining: bool) -> bool
    ensures { result ≡ (not (is_some makes) && defining) }
{
    makes.is_none() && defining
}

/// The derivations of a declarator in the order in which they apply.
pub(crate) fn parts_if_both(
    alloc: Global,
    pointers: &[Pointer],
    inner: Option<Items<Part>>,
    outer: Option<Items<Part>>,
) -> Result<Option<Items<Part>>, Memory>
    ensures { IfOk result (λ r. r ≡ sequences.parts_if_both pointers.now inner outer) }
{
    let inner = some_or_drop!(inner, outer);
    let outer = some_or_drop!(outer, inner);
    Ok(Some(declarator_parts(alloc, pointers, outer, inner)?))
}

/// An array of a number of elements that an expression tells (C11 6.7.6.2p1).
pub(crate) fn sized_array(
    alloc: Global,
    found: &mut Found,
    around: &Around<'_>,
    bracket: Pos,
    first: Pos,
    operand: Option<Boxed<Operand>>,
) -> Result<Option<Part>, Memory>
    ensures { Walks (sequences.sized_row bracket first operand) around.now found.old result found.new }
{
    let count = match released(operand) {
        Some(operand) => count_row(alloc, found, around, bracket, first, operand)?,
        None => None,
    };
    Ok(Some(array_part(count)))
}

// ---- parameters

/// The specifiers of a parameter (C11 6.7.6.3p2).
pub(crate) fn parameter_basis_if_any(
    found: &mut Found,
    around: &Around<'_>,
    place: Pos,
    basis: Option<Basis>,
) -> Result<Option<Basis>, Memory>
    ensures { Walks (scopes.asked basis (trees.parameter_basis place)) around.now found.old result found.new }
{
    match basis {
        Some(basis) => parameter_basis(found, around, place, basis),
        None => Ok(None),
    }
}

/// Whether specifiers have `register` (C11 6.7.1).
pub(crate) fn register_of(basis: &Option<Basis>) -> Option<bool>
    ensures { result ≡ option_map (λ b. spec.is_register b.storage) basis.now }
{
    match basis {
        Some(basis) => Some(is_register(basis.storage)),
        None => None,
    }
}

/// The type of a parameter as adjusted (C11 6.7.6.3p7).
pub(crate) fn adjusted_if_any(
    alloc: Global,
    found: &mut Found,
    around: &Around<'_>,
    place: Pos,
    ctype: Option<CType>,
) -> Result<Option<CType>, Memory>
    ensures { Walks (scopes.asked ctype (λ t. spec.complete_parameter place (spec.adjusted (types.shape t) t))) around.now found.old result found.new }
{
    match ctype {
        Some(ctype) => adjusted_parameter(alloc, found, around, place, ctype),
        None => Ok(None),
    }
}

/// A parameter of this name, number and type (C11 6.7.6.3).
pub(crate) fn parameter_if_both(
    alloc: Global,
    found: &mut Found,
    around: &Around<'_>,
    name: Option<&Identifier>,
    first: Pos,
    number: u32,
    in_register: Option<bool>,
    ctype: Option<CType>,
) -> Result<Option<Parameter>, Memory>
    ensures { Walks (scopes.both_asked in_register ctype (parameter_given (option_copied name.entry) first number)) around.now found.old result found.new }
{
    let in_register = some_or_drop!(in_register, ctype);
    let Some(ctype) = ctype else {
        return Ok(None);
    };
    parameter_given(
        alloc,
        found,
        around,
        name,
        first,
        number,
        in_register,
        ctype,
    )
}

/// The same numbers.
pub(crate) fn copied_numbers(alloc: Global, numbers: &Items<u32>) -> Result<Items<u32>, Memory>
    ensures { IfOk result (λ copy. copy ≡ numbers.now) }
{
    Ok(Items::from_slice(alloc, numbers.as_slice())?)
}

// ---- members

/// More members, where there are members before them and these are some.
pub(crate) fn members_joined(
    all: Option<Items<NamedMember>>,
    more: Option<Items<NamedMember>>,
) -> Result<Option<Items<NamedMember>>, Memory>
    ensures { IfOk result (λ r. r ≡ lists.both_joined all more) }
{
    let mut all = some_or_drop!(all, more);
    let more = some_or_drop!(more, all);
    or_drop!(all.append(more), all);
    Ok(Some(all))
}

/// The structure type of this number and these members (C11 6.7.2.1).
pub(crate) fn members_if_both(
    alloc: Global,
    found: &mut Found,
    around: &Around<'_>,
    place: Pos,
    number: Option<u32>,
    members: Option<Items<NamedMember>>,
) -> Result<Option<CType>, Memory>
    ensures { Walks (scopes.both_asked number members (spec.members_row place)) around.now found.old result found.new }
{
    let Some(members) = members else {
        return Ok(None);
    };
    let number = some_or_drop!(number, members);
    let made = members_row(alloc, found, around, place, number, members.as_slice());
    drop(members);
    made
}
