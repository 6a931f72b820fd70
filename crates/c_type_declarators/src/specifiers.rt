//! Specifiers as a whole (C11 6.7.1 to 6.7.3).
//! Rows: the parts that specifiers give, and the type and storage of all of them.

ghost use Rattle.std.specs.Prelude.{◌≡◌, ◌++◌, ◌∷◌, [], true, OnOk};
ghost use Rattle.std.specs.List.{list_any};
ghost use Rattle.c_typing.specs.Declarators as spec;
ghost use Rattle.c_typing.specs.Types as types;
ghost use Rattle.c_type_walk.specs.Walks.{Walks};
ghost use Rattle.c_type_declarators.specs.Specifiers.{parts_of};

use crate::words::named_by_words;
use c_tree::typed::CType;
use c_tree::{FaultKind, Identifier, Pos, Storage, TypeWord};
use c_type_rules::{constant_if, copied, plain};
use c_type_walk::{Around, Found};
use c_typing::{Basis, Meaning};
use std::alloc::Global;
use word_ops::{Items, Memory};

/// What specifiers are made of, as far as they have been read.
#[derive(Drop)]
pub struct SpecifierParts {
    /// the words that name a type (C11 6.7.2)
    words: Items<TypeWord>,
    /// the storage words (C11 6.7.1)
    storages: Items<Storage>,
    /// whether `const` stands among them (C11 6.7.3)
    constant: bool,
    /// the types that are named otherwise, each unless a fault stands in it
    types: Items<Option<CType>>,
}

impl SpecifierParts {
    /// No specifier has been read. Takes no memory.
    pub fn new(alloc: Global) -> SpecifierParts
        ensures { parts_of result ≡ spec.nothing }
    {
        SpecifierParts {
            words: Items::new(alloc),
            storages: Items::new(alloc),
            constant: false,
            types: Items::new(alloc),
        }
    }

    /// A storage word more (C11 6.7.1).
    ///
    /// # Errors
    ///
    /// `Memory` where memory is wanting.
    pub fn add_storage(&mut self, storage: Storage) -> Result<(), Memory>
        ensures { OnOk result (parts_of self.new ≡ record (parts_of self.old) { storages = (parts_of self.old).storages ++ storage ∷ [] }) }
    {
        self.storages.push(storage)?;
        Ok(())
    }

    /// `const` (C11 6.7.3). Takes no memory.
    pub fn add_constant(&mut self)
        ensures { parts_of self.new ≡ record (parts_of self.old) { constant = true } }
    {
        self.constant = true;
    }

    /// A word more that names a type (C11 6.7.2).
    ///
    /// # Errors
    ///
    /// `Memory` where memory is wanting.
    pub fn add_word(&mut self, word: TypeWord) -> Result<(), Memory>
        ensures { OnOk result (parts_of self.new ≡ record (parts_of self.old) { words = (parts_of self.old).words ++ word ∷ [] }) }
    {
        self.words.push(word)?;
        Ok(())
    }

    /// A type more: a structure, an enumeration or a typedef name, unless a fault stands in it.
    ///
    /// # Errors
    ///
    /// `Memory` where memory is wanting.
    pub fn add_type(&mut self, ctype: Option<CType>) -> Result<(), Memory>
        ensures { OnOk result (parts_of self.new ≡ spec.with_type (parts_of self.old) ctype) }
    {
        self.types.push(ctype)?;
        Ok(())
    }
}

/// The type that a typedef name stands for here (C11 6.7.8), or `None` where a fault stands in that type. A name that stands
/// for no type is Undeclared, at the name.
///
/// # Errors
///
/// `Memory` where memory is wanting.
pub fn typedef_named(
    alloc: Global,
    found: &mut Found,
    around: &Around<'_>,
    name: &Identifier,
) -> Result<Option<CType>, Memory>
    ensures { Walks (spec.typedef_name_row name.now) around.now found.old result found.new }
{
    match found.meaning(&name.text) {
        Some(Meaning::TypedefOf(ctype)) => Ok(Some(copied(alloc, ctype)?)),
        Some(Meaning::Unknown) => Ok(None),
        _ => found.tell(around, FaultKind::Undeclared, name.place),
    }
}

/// What specifiers are as a whole (C11 6.7.1p2, 6.7.2p2, 6.9p2): at most one storage word, none of a block at file level,
/// and exactly one type, by words or otherwise; faults are told at their first token.
///
/// # Errors
///
/// `Memory` where memory is wanting.
pub fn basis_of(
    alloc: Global,
    found: &mut Found,
    around: &Around<'_>,
    at: Pos,
    parts: SpecifierParts,
) -> Result<Option<Basis>, Memory>
    ensures { Walks (spec.basis_of at (parts_of parts)) around.now found.old result found.new }
{
    let storages = parts.storages.as_slice();
    if storages.len() > 1 || (around.at_file_level && has_word_of_block(storages)) {
        return found.tell(around, FaultKind::BadSpecifier, at);
    }
    named_type(alloc, found, around, at, parts)
}

/// Whether a storage word stands among these that file level has not (C11 6.9p2).
fn has_word_of_block(storages: &[Storage]) -> bool
    ensures { result ≡ list_any spec.is_of_block storages.now }
{
    storages.iter().any(|storage| matches!(*storage, Storage::Auto | Storage::Register))
}

/// The one type that is named, by words or otherwise (C11 6.7.2p2).
fn named_type(
    alloc: Global,
    found: &mut Found,
    around: &Around<'_>,
    at: Pos,
    parts: SpecifierParts,
) -> Result<Option<Basis>, Memory>
    ensures { Walks (spec.named_type at (parts_of parts) (parts_of parts).types (spec.named_by_words (parts_of parts).words)) around.now found.old result found.new }
{
    let SpecifierParts {
        words,
        storages,
        constant,
        mut types,
    } = parts;
    let storage = storages.as_slice().first().copied();
    let Some(named) = types.pop() else {
        let Some(base) = named_by_words(words.as_slice()) else {
            return found.tell(around, FaultKind::BadSpecifier, at);
        };
        return Ok(Some(basis(storage, constant, plain(alloc, base))));
    };
    if !types.is_empty() || !words.is_empty() {
        return found.tell(around, FaultKind::BadSpecifier, at);
    }
    let Some(ctype) = named else {
        return Ok(None);
    };
    Ok(Some(basis(storage, constant, ctype)))
}

/// A storage word and a type that is `const` too where that word stands (C11 6.7.3).
fn basis(storage: Option<Storage>, constant: bool, ctype: CType) -> Basis
    ensures { result ≡ record { storage = storage; ctype = types.constant_if constant ctype } }
{
    Basis {
        storage,
        ctype: constant_if(constant, ctype),
    }
}
