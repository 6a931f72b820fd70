//! Declarations (C11 6.7): what each declarator with its initialiser declares, and where.
//! Walks over specifiers, declarators and initialisers in turn; the rows stand in the files beside it.

ghost use Rattle.std.specs.Prelude.{◌≡◌, IfOk, None, Some, false, map, unwrap_or};
ghost use Rattle.std.specs.Option.{option_copied, option_map};
ghost use Rattle.c_typing.specs.Declarations as spec;
ghost use Rattle.c_typing.specs.Declarators as declarators;
ghost use Rattle.c_type_walk.specs.Walks.{Walks};
ghost use Rattle.c_typing.specs.Trees.{declarator_typing};
ghost use Rattle.c_type_declarations.specs.Rows as rows;
ghost use Rattle.c_type_declarations.specs.Starting.{starting};

use crate::automatic::automatic_row;
use crate::linked_objects::{function_row, linked_row};
use crate::made::both;
use crate::second_declarations::{allows_typedef, allows_untyped};
use crate::starts::without_start;
use crate::static_objects::static_row;
use c_tree::typed::{CType, TStmt};
use c_tree::{Declaration, FaultKind, Identifier, InitDeclarator, Initialiser, Pos, Storage};
use c_type_declarators::is_register;
use c_type_rules::{copied, is_function};
use c_type_trees::{declared_type, first_specifier, makes, name, specifiers};
use c_type_walk::{Around, Found};
use c_typing::{Basis, Meaning};
use std::alloc::Global;
use word_ops::{Items, Memory};

/// A declaration, by the statements that it comes to: initial values of automatic objects.
///
/// # Errors
///
/// `Memory` where memory is wanting.
pub fn declaration_row(
    alloc: Global,
    found: &mut Found,
    around: &Around<'_>,
    tree: &Declaration,
) -> Result<Option<Items<TStmt>>, Memory>
    ensures { Walks (spec.declaration_row (spec.declared_of tree.now)) around.now found.old result found.new }
{
    let list = tree.specifiers.as_slice();
    let alone = tree.declarators.is_empty();
    let basis = specifiers(alloc, found, around, alone, list)?;
    let first = first_specifier(list);
    let declarators = tree.declarators.as_slice();
    let made = init_declarators_row(alloc, found, around, first, basis.as_ref(), declarators);
    let Ok(made) = made else {
        drop(basis);
        return Err(Memory);
    };
    Ok(behind_any(basis, made))
}

/// What a declaration comes to, where its specifiers have no fault.
fn behind_any(basis: Option<Basis>, made: Option<Items<TStmt>>) -> Option<Items<TStmt>>
    ensures { result ≡ rows.behind_any basis made }
{
    let Some(basis) = basis else {
        drop(made);
        return None;
    };
    drop(basis);
    made
}

/// The declarators of a declaration, in order: what one declares is visible in the next (C11 6.2.1p7).
fn init_declarators_row(
    alloc: Global,
    found: &mut Found,
    around: &Around<'_>,
    first: Pos,
    basis: Option<&Basis>,
    list: &[InitDeclarator],
) -> Result<Option<Items<TStmt>>, Memory>
    ensures { Walks (spec.init_declarators_row first (option_copied basis.entry) (map spec.beginning_of list.now)) around.now found.old result found.new }
{
    let mut made = Some(Items::new(alloc));
    for one in list {
        let Ok(next) = init_declarator_row(alloc, found, around, first, basis, one) else {
            drop(made);
            return Err(Memory);
        };
        made = both(made, next)?;
    }
    Ok(made)
}

fn init_declarator_row(
    alloc: Global,
    found: &mut Found,
    around: &Around<'_>,
    first: Pos,
    basis: Option<&Basis>,
    tree: &InitDeclarator,
) -> Result<Option<Items<TStmt>>, Memory>
    ensures { Walks (spec.init_declarator_row first (option_copied basis.entry) (spec.beginning_of tree.now)) around.now found.old result found.new }
{
    let declarator = &tree.declarator;
    let base = basis_type(alloc, basis)?;
    let ctype = declared_type(alloc, found, around, &tree.declarator, false, first, base)?;
    declared_if(alloc, found, around, basis, tree, ctype)
}

/// What a declarator declares, to which this type was given unless a fault stands in it; nothing where it has no name.
fn declared_if(
    alloc: Global,
    found: &mut Found,
    around: &Around<'_>,
    basis: Option<&Basis>,
    tree: &InitDeclarator,
    ctype: Option<CType>,
) -> Result<Option<Items<TStmt>>, Memory>
    ensures { Walks (spec.declared_if (option_copied basis.entry) (unwrap_or (declarator_typing tree.now.declarator).makes false) (declarator_typing tree.now.declarator).name (spec.beginning_of tree.now).start ctype) around.now found.old result found.new }
{
    let Some(name) = name(&tree.declarator) else {
        drop(ctype);
        return Ok(None);
    };
    let Some(ctype) = ctype else {
        return untyped_by(alloc, found, around, basis, tree, name);
    };
    let Some(basis) = basis else {
        drop(ctype);
        return untyped_by(alloc, found, around, None, tree, name);
    };
    let start = start_of(tree);
    declared_row(alloc, found, around, basis.storage, name, start, ctype)
}

/// A name in whose type there is a fault, by the specifiers before it.
fn untyped_by(
    alloc: Global,
    found: &mut Found,
    around: &Around<'_>,
    basis: Option<&Basis>,
    tree: &InitDeclarator,
    name: &Identifier,
) -> Result<Option<Items<TStmt>>, Memory>
    ensures { Walks (spec.declared_if (option_copied basis.entry) (unwrap_or (declarator_typing tree.now.declarator).makes false) (Some name.now) (spec.beginning_of tree.now).start None) around.now found.old result found.new }
{
    let storage = storage_of(basis);
    let is_linked = around.at_file_level
        || (is_extern(storage) || makes(&tree.declarator).unwrap_or(false));
    untyped_row(alloc, found, around, is_typedef(storage), is_linked, name)
}

/// The initialiser of a declarator, where one stands.
fn start_of(tree: &InitDeclarator) -> Option<&Initialiser>
    ensures { starting (option_copied result) ≡ (spec.beginning_of tree.now).start }
{
    match &tree.start {
        Some(start) => Some(&start.value),
        None => None,
    }
}

fn basis_type(alloc: Global, basis: Option<&Basis>) -> Result<Option<CType>, Memory>
    ensures { IfOk result (λ t. t ≡ option_map declarators.basis_type (option_copied basis.entry)) }
{
    match basis {
        Some(basis) => Ok(Some(copied(alloc, &basis.ctype)?)),
        None => Ok(None),
    }
}

fn storage_of(basis: Option<&Basis>) -> Option<Storage>
    ensures { result ≡ spec.storage_of (option_copied basis.entry) }
{
    match basis {
        Some(basis) => basis.storage,
        None => None,
    }
}

/// What a declarator of this type declares, by the storage word (C11 6.7.1, 6.2.2p4, p5).
fn declared_row(
    alloc: Global,
    found: &mut Found,
    around: &Around<'_>,
    storage: Option<Storage>,
    name: &Identifier,
    start: Option<&Initialiser>,
    ctype: CType,
) -> Result<Option<Items<TStmt>>, Memory>
    ensures { Walks (spec.declared_row storage name.now (starting (option_copied start.entry)) ctype) around.now found.old result found.new }
{
    if is_typedef(storage) {
        typedef_row(alloc, found, around, name, ctype, start)
    } else if is_function(&ctype) {
        function_row(alloc, found, around, name, ctype, start)
    } else if around.at_file_level || is_extern(storage) {
        linked_row(alloc, found, around, name, is_extern(storage), ctype, start)
    } else if is_static(storage) {
        static_row(alloc, found, around, name, ctype, start)
    } else {
        automatic_row(
            alloc,
            found,
            around,
            name,
            is_register(storage),
            ctype,
            start,
        )
    }
}

/// A typedef name (C11 6.7.8).
fn typedef_row(
    alloc: Global,
    found: &mut Found,
    around: &Around<'_>,
    name: &Identifier,
    ctype: CType,
    start: Option<&Initialiser>,
) -> Result<Option<Items<TStmt>>, Memory>
    ensures { Walks (spec.typedef_row name.now ctype (starting (option_copied start.entry))) around.now found.old result found.new }
{
    let allowed = allows_typedef(&ctype, found.own_meaning(around, &name.text));
    let Ok(()) = found.tell_if(!allowed, FaultKind::Redeclared, name.place) else {
        drop(ctype);
        return Err(Memory);
    };
    found.declare(alloc, &name.text, Meaning::TypedefOf(ctype))?;
    without_start(alloc, found, around, start)
}

/// A name in whose type there is a fault is declared all the same.
fn untyped_row(
    alloc: Global,
    found: &mut Found,
    around: &Around<'_>,
    is_typedef: bool,
    is_linked: bool,
    name: &Identifier,
) -> Result<Option<Items<TStmt>>, Memory>
    ensures { Walks (spec.untyped_row is_typedef is_linked name.now) around.now found.old result found.new }
{
    let own = found.own_meaning(around, &name.text);
    let allowed = allows_untyped(is_typedef, is_linked, own);
    found.tell_if(!allowed, FaultKind::Redeclared, name.place)?;
    found.declare(alloc, &name.text, Meaning::Unknown)?;
    Ok(None)
}

pub(crate) fn is_typedef(storage: Option<Storage>) -> bool
    ensures { result ≡ spec.is_typedef storage }
{
    matches!(storage, Some(Storage::Typedef))
}

pub(crate) fn is_extern(storage: Option<Storage>) -> bool
    ensures { result ≡ spec.is_extern storage }
{
    matches!(storage, Some(Storage::Extern))
}

pub(crate) fn is_static(storage: Option<Storage>) -> bool
    ensures { result ≡ spec.is_static storage }
{
    matches!(storage, Some(Storage::Static))
}
