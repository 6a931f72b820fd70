//! Units: what stands at file level, and the typed tree of all (C11 6.9).
//! Walks over declarations and definitions in turn, and puts their parts together.

ghost use Rattle.std.specs.Prelude.{◌≡◌, [], IfOk, map};
ghost use Rattle.c_typing.specs.Declarations as declarations;
ghost use Rattle.c_typing.specs.Scopes as scopes;
ghost use Rattle.c_typing.specs.Units as spec;
ghost use Rattle.c_type_walk.specs.Walks.{Walks, fixed};
ghost use Rattle.c_types.specs.Definitions.{typed_of_parts};

use crate::definitions::definition_row;
use c_tree::External;
use c_tree::typed::{Base, CType, StaticObject, StaticPart, TFunction, Typed};
use c_type_declarations::{
    FunctionNames, MAIN, both, declaration_row, defined_objects, name_text, one, static_object,
};
use c_type_rules::{copied, plain};
use c_type_walk::{Around, Found, copied_text, number_in};
use c_typing::State;
use indexed_list::IndexedList;
use std::alloc::Global;
use std::mem;
use word_ops::{Items, Memory, Text};

/// Declarations and definitions, in order.
///
/// # Errors
///
/// `Memory` where memory is wanting.
pub(crate) fn outers_row(
    alloc: Global,
    found: &mut Found,
    around: &Around<'_>,
    list: &[External],
) -> Result<Option<Items<TFunction>>, Memory>
    ensures { Walks (spec.outers_row (map spec.outer_of list.now)) around.now found.old result found.new }
{
    let mut made = Some(Items::new(alloc));
    for one in list {
        let next = outer_row(alloc, found, around, one)?;
        made = both(made, next)?;
    }
    Ok(made)
}

fn outer_row(
    alloc: Global,
    found: &mut Found,
    around: &Around<'_>,
    tree: &External,
) -> Result<Option<Items<TFunction>>, Memory>
    ensures { Walks (spec.outer_row (spec.outer_of tree.now)) around.now found.old result found.new }
{
    match tree {
        External::Declaration(tree) => match declaration_row(alloc, found, around, tree)? {
            Some(_) => Ok(Some(Items::new(alloc))),
            None => Ok(None),
        },
        External::Definition(tree) => match definition_row(alloc, found, around, tree)? {
            Some(function) => Ok(Some(one(alloc, function)?)),
            None => Ok(None),
        },
    }
}

/// The functions that a unit defines, by their names, in order.
///
/// # Errors
///
/// `Memory` where memory is wanting.
pub(crate) fn defined_functions(
    alloc: Global,
    list: &[External],
) -> Result<IndexedList<Text>, Memory>
    ensures { IfOk result (λ r. r ≡ spec.defined_functions (map spec.outer_of list.now)) }
{
    let mut names = IndexedList::new(alloc);
    for one in list {
        if let External::Definition(tree) = one {
            names.push(alloc, name_text(alloc, &tree.declarator)?)?;
        }
    }
    Ok(names)
}

/// The file-level objects that a unit defines, each once, by their names, in order.
///
/// # Errors
///
/// `Memory` where memory is wanting.
pub(crate) fn file_objects(alloc: Global, list: &[External]) -> Result<IndexedList<Text>, Memory>
    ensures { IfOk result (λ r. r ≡ spec.file_objects spec.no_function [] (map spec.outer_of list.now)) }
{
    let mut names = FunctionNames::new(alloc, None);
    let mut all = IndexedList::new(alloc);
    for one in list {
        if let External::Declaration(tree) = one {
            defined_objects(alloc, &mut names, &mut all, tree)?;
        }
    }
    Ok(all)
}

/// What is fixed at file level.
pub(crate) fn around_unit<'a>(
    functions: &'a IndexedList<Text>,
    objects: &'a IndexedList<Text>,
    void: &'a CType,
) -> Around<'a>
    ensures { fixed result ≡ spec.around_file functions.now objects.now void.now }
{
    Around {
        functions,
        objects,
        at_file_level: true,
        names_from: 0,
        tags_from: 0,
        own_from: 0,
        inner_from: 0,
        numbers_from: 0,
        may_break: false,
        may_continue: false,
        result: void,
    }
}

/// The number of `main` among the functions of a unit.
///
/// # Errors
///
/// `Memory` where the number of a function before it is the last below 2^32, or memory is wanting.
pub(crate) fn number_of_main(
    alloc: Global,
    functions: &IndexedList<Text>,
) -> Result<Option<u32>, Memory>
    ensures { IfOk result (λ n. n ≡ scopes.number_in 0 functions.now declarations.main) }
{
    let main = Text::from_vec(Vec::from_slice(alloc, MAIN)?);
    number_in(functions, &main)
}

/// The typed tree of a unit, of what was found at its end.
///
/// # Errors
///
/// `Memory` where memory is wanting.
pub(crate) fn typed_unit(
    alloc: Global,
    state: State,
    objects: &IndexedList<Text>,
    functions: Items<TFunction>,
    main: u32,
) -> Result<Typed, Memory>
    ensures { IfOk result (λ t. t ≡ typed_of_parts state objects.now functions main) }
{
    let all = typed_objects(alloc, &state, objects);
    let mut state = state;
    let statics = mem::replace(&mut state.statics, Items::new(alloc));
    drop(state);
    let Ok(mut all) = all else {
        drop((statics, functions));
        return Err(Memory);
    };
    let Ok(()) = all.append(statics) else {
        drop((all, functions));
        return Err(Memory);
    };
    Ok(Typed {
        objects: all,
        functions,
        main,
    })
}

/// File-level objects with the types that all their declarations tell.
fn typed_objects(
    alloc: Global,
    state: &State,
    names: &IndexedList<Text>,
) -> Result<Items<StaticObject>, Memory>
    ensures { IfOk result (λ all. all ≡ map (spec.file_object state.now) names.now) }
{
    let mut all = Items::new(alloc);
    for name in names.as_slice() {
        let Ok(object) = file_object(alloc, state, name) else {
            drop(all);
            return Err(Memory);
        };
        let Ok(()) = all.push(object) else {
            drop(all);
            return Err(Memory);
        };
    }
    Ok(all)
}

/// A file-level object with the type that all its declarations tell.
fn file_object(alloc: Global, state: &State, name: &Text) -> Result<StaticObject, Memory>
    ensures { IfOk result (λ o. o ≡ spec.file_object state.now name.now) }
{
    let ctype = match state.linked.get(name) {
        Some(linkage) => copied(alloc, &linkage.ctype)?,
        None => plain(alloc, Base::Void),
    };
    let parts = match state.starts.get(name) {
        Some(parts) => copied_parts(alloc, parts.as_slice())?,
        None => Items::new(alloc),
    };
    Ok(static_object(&state.structs, ctype, parts))
}

fn copied_parts(alloc: Global, list: &[StaticPart]) -> Result<Items<StaticPart>, Memory>
    ensures { IfOk result (λ copy. copy ≡ list.now) }
{
    let mut copy = Items::new(alloc);
    for part in list {
        copy.push(copied_part(alloc, part)?)?;
    }
    Ok(copy)
}

fn copied_part(alloc: Global, part: &StaticPart) -> Result<StaticPart, Memory>
    ensures { IfOk result (λ copy. copy ≡ part.now) }
{
    match part {
        StaticPart::Bytes(offset, bytes) => {
            Ok(StaticPart::Bytes(*offset, copied_text(alloc, bytes)?))
        }
        StaticPart::Address(offset, number, place) => {
            Ok(StaticPart::Address(*offset, *number, *place))
        }
    }
}
