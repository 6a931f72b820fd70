//! Which declarators declare objects, told from declarations alone: before a walk, so that the number of an object is known
//! before those that are declared behind it.

ghost use Rattle.std.specs.Prelude.{◌≡◌, [], ◌∷◌, IfOk, OnOk, if◌then◌else◌, map, length};
ghost use Rattle.std.specs.Option.{option_copied};
ghost use Rattle.c_typing.specs.Declarations as spec;
ghost use Rattle.c_typing.specs.OfStatements as statements;
ghost use Rattle.c_typing.specs.Units as units;
ghost use Rattle.c_typing.specs.Trees.{specifier_typing, declarator_typing};
ghost use Rattle.c_type_declarations.specs.Counting.{named, names_in, stored_by, object_names};

use crate::declarations::{is_extern, is_static, is_typedef};
use c_tree::{Declaration, Declarator, InitDeclarator, Specifier, Storage};
use c_type_rules::is_function;
use c_type_trees::{makes, name};
use c_type_walk::{copied_text, meaning_of};
use c_typing::{Meaning, State};
use indexed_list::IndexedList;
use scope_map::ScopeMap;
use std::alloc::Global;
use word_ops::{Memory, Text};

/// Which typedef names are names of function types (C11 6.7.8): those that are visible where a count begins, and those
/// that the declarations counted so far have declared since.
#[derive(Drop)]
pub struct FunctionNames<'a> {
    visible: Option<&'a State>,
    since: ScopeMap<Text, bool>,
}

impl<'a> FunctionNames<'a> {
    /// Those that are visible in a state, or none. Takes no memory.
    pub fn new(alloc: Global, visible: Option<&'a State>) -> FunctionNames<'a>
        ensures { named result ≡ names_in (option_copied visible.entry) }
    {
        FunctionNames {
            visible,
            since: ScopeMap::new(alloc),
        }
    }

    /// Whether a name is one of a function type.
    fn has(&self, name: &Text) -> bool
        ensures { result ≡ named self.now name.now }
    {
        match self.since.get(name) {
            Some(is_function) => *is_function,
            None => self.sees(name),
        }
    }

    /// Whether a visible name is one of a function type.
    fn sees(&self, name: &Text) -> bool
        ensures { result ≡ names_in (option_copied self.now.visible) name.now }
    {
        match self.visible {
            Some(state) => is_function_name(meaning_of(state, name)),
            None => false,
        }
    }

    /// One name more, and whether it is one of a function type.
    fn add(&mut self, name: Text, is_function: bool) -> Result<(), Memory>
        ensures { OnOk result (named self.new ≡ spec.also name is_function (named self.old)) }
    {
        self.since.insert(name, is_function)
    }
}

fn is_function_name(meaning: Option<&Meaning>) -> bool
    ensures { result ≡ statements.is_function_name (option_copied meaning.entry) }
{
    match meaning {
        Some(Meaning::TypedefOf(ctype)) => is_function(ctype),
        _ => false,
    }
}

/// What a storage word among specifiers may say.
#[derive(Clone, Copy)]
enum Stored {
    /// a typedef name is declared
    Typedef,
    /// no automatic object is declared
    Elsewhere,
    /// no object is declared that the unit defines, unless it has an initialiser
    Outside,
}

impl Stored {
    fn covers(self, storage: Storage) -> bool
        ensures { result ≡ stored_by self storage }
    {
        let storage = Some(storage);
        match self {
            Stored::Typedef => is_typedef(storage),
            Stored::Elsewhere => is_typedef(storage) || (is_extern(storage) || is_static(storage)),
            Stored::Outside => is_typedef(storage) || is_extern(storage),
        }
    }
}

fn stores_one(what: Stored, specifier: &Specifier) -> bool
    ensures { result ≡ spec.stores_by (stored_by what) (specifier_typing specifier.now).specifying }
{
    match specifier {
        Specifier::Storage(storage, _) => what.covers(*storage),
        Specifier::Const(_) => false,
        Specifier::Word(_, _) => false,
        Specifier::StructTag(_, _) => false,
        Specifier::Struct { .. } => false,
        Specifier::EnumTag(_, _) => false,
        Specifier::Enum { .. } => false,
        Specifier::TypedefName(_) => false,
    }
}

/// Whether such a storage word stands among specifiers.
fn stores(what: Stored, list: &[Specifier]) -> bool
    ensures { result ≡ spec.stores (stored_by what) (map specifier_typing list.now) }
{
    for one in list {
        if stores_one(what, one) {
            return true;
        }
    }
    false
}

fn uses_one(names: &FunctionNames<'_>, specifier: &Specifier) -> bool
    ensures { result ≡ spec.uses_one (named names.now) (specifier_typing specifier.now).specifying }
{
    match specifier {
        Specifier::Storage(_, _) => false,
        Specifier::Const(_) => false,
        Specifier::Word(_, _) => false,
        Specifier::StructTag(_, _) => false,
        Specifier::Struct { .. } => false,
        Specifier::EnumTag(_, _) => false,
        Specifier::Enum { .. } => false,
        Specifier::TypedefName(name) => names.has(&name.text),
    }
}

/// Whether a typedef name of a function type stands among specifiers.
fn uses_function(names: &FunctionNames<'_>, list: &[Specifier]) -> bool
    ensures { result ≡ spec.uses_function (named names.now) (map specifier_typing list.now) }
{
    for one in list {
        if uses_one(names, one) {
            return true;
        }
    }
    false
}

/// Whether a declarator makes a function, by its outermost part or by its specifiers.
fn makes_function(by_specifiers: bool, tree: &Declarator) -> bool
    ensures { result ≡ spec.makes_function by_specifiers (declarator_typing tree.now) }
{
    makes(tree).unwrap_or(by_specifiers)
}

/// How many declarators of a list declare objects.
fn count_objects(by_specifiers: bool, list: &[InitDeclarator]) -> usize
    ensures { result ≡ length (spec.objects_among by_specifiers (map spec.beginning_of list.now)) }
{
    let mut count = 0;
    for one in list {
        if !makes_function(by_specifiers, &one.declarator) {
            count += 1;
        }
    }
    count
}

/// Declares the typedef names of a list.
fn names_typedefs(
    alloc: Global,
    names: &mut FunctionNames<'_>,
    by_specifiers: bool,
    list: &[InitDeclarator],
) -> Result<(), Memory>
    ensures { OnOk result (named names.new ≡ spec.names_typedefs by_specifiers (named names.old) (map spec.beginning_of list.now)) }
{
    for one in list {
        let name = name_text(alloc, &one.declarator)?;
        names.add(name, makes_function(by_specifiers, &one.declarator))?;
    }
    Ok(())
}

/// Declares the names of a declaration, where these are typedef names.
fn add_typedefs(
    alloc: Global,
    names: &mut FunctionNames<'_>,
    by_specifiers: bool,
    list: &[Specifier],
    declarators: &[InitDeclarator],
) -> Result<(), Memory>
    ensures { OnOk result (named names.new ≡ (if spec.stores spec.stored_typedef (map specifier_typing list.now) then spec.names_typedefs by_specifiers (named names.old) (map spec.beginning_of declarators.now) else named names.old)) }
{
    if stores(Stored::Typedef, list) {
        return names_typedefs(alloc, names, by_specifiers, declarators);
    }
    Ok(())
}

/// How many automatic objects a declaration in a function declares; `names` are then those behind it.
///
/// # Errors
///
/// `Memory` where memory is wanting.
pub fn automatic_count(
    alloc: Global,
    names: &mut FunctionNames<'_>,
    tree: &Declaration,
) -> Result<usize, Memory>
    ensures count { IfOk result (λ n. n ≡ (spec.automatic_count (named names.old) (spec.declared_of tree.now)).0) }
    ensures names { OnOk result (named names.new ≡ (spec.automatic_count (named names.old) (spec.declared_of tree.now)).1) }
{
    let list = tree.specifiers.as_slice();
    let declarators = tree.declarators.as_slice();
    let by_specifiers = uses_function(names, list);
    add_typedefs(alloc, names, by_specifiers, list, declarators)?;
    if stores(Stored::Elsewhere, list) {
        return Ok(0);
    }
    Ok(count_objects(by_specifiers, declarators))
}

/// Puts the names of the file-level objects that a declaration defines, tentatively or not (C11 6.9.2), behind those that
/// are there already, each once; `names` are then those behind it.
///
/// # Errors
///
/// `Memory` where memory is wanting.
pub fn defined_objects(
    alloc: Global,
    names: &mut FunctionNames<'_>,
    all: &mut IndexedList<Text>,
    tree: &Declaration,
) -> Result<(), Memory>
    ensures all { OnOk result (all.new ≡ units.with_new all.old (spec.defined_objects (named names.old) (spec.declared_of tree.now)).0) }
    ensures names { OnOk result (named names.new ≡ (spec.defined_objects (named names.old) (spec.declared_of tree.now)).1) }
{
    let list = tree.specifiers.as_slice();
    let declarators = tree.declarators.as_slice();
    let by_specifiers = uses_function(names, list);
    if stores(Stored::Typedef, list) {
        return names_typedefs(alloc, names, by_specifiers, declarators);
    }
    let started_alone = stores(Stored::Outside, list);
    add_objects(alloc, all, by_specifiers, started_alone, declarators)
}

/// Puts the names of objects behind those that are there already: of those with an initialiser alone, where that is told.
fn add_objects(
    alloc: Global,
    all: &mut IndexedList<Text>,
    by_specifiers: bool,
    started_alone: bool,
    list: &[InitDeclarator],
) -> Result<(), Memory>
    ensures { OnOk result (all.new ≡ units.with_new all.old (object_names by_specifiers started_alone (map spec.beginning_of list.now))) }
{
    for one in list {
        let is_object = !makes_function(by_specifiers, &one.declarator);
        if is_object && (!started_alone || one.start.is_some()) {
            add_new(alloc, all, &one.declarator)?;
        }
    }
    Ok(())
}

/// Puts the name of a declarator behind those that are there already, unless it is one of them.
fn add_new(alloc: Global, all: &mut IndexedList<Text>, tree: &Declarator) -> Result<(), Memory>
    ensures { OnOk result (all.new ≡ units.with_new all.old (spec.name_of (declarator_typing tree.now).name ∷ [])) }
{
    let text = name_text(alloc, tree)?;
    if all.contains(&text) {
        drop(text);
        return Ok(());
    }
    all.push(alloc, text)
}

/// The text of the name of a declarator, which is empty where it has none.
///
/// # Errors
///
/// `Memory` where memory is wanting.
pub fn name_text(alloc: Global, tree: &Declarator) -> Result<Text, Memory>
    ensures { IfOk result (λ t. t ≡ spec.name_of (declarator_typing tree.now).name) }
{
    match name(tree) {
        Some(name) => copied_text(alloc, &name.text),
        None => Ok(Text::from_vec(Vec::new(alloc))),
    }
}
