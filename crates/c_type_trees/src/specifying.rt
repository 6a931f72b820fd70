//! Specifiers (C11 6.7.1 to 6.7.3).
//! Walks over specifiers and enumerators; the rows stand in c_type_declarators.

ghost use Rattle.std.specs.Prelude.{◌≡◌, map};
ghost use Rattle.c_typing.specs.Declarators as declarators;
ghost use Rattle.c_typing.specs.Trees as typing;
ghost use Rattle.c_type_walk.specs.Nests.{Nests};
ghost use Rattle.c_type_walk.specs.Walks.{Walks};
ghost use Rattle.c_type_declarators.specs.Specifiers.{parts_of};
ghost use Rattle.c_type_expressions.specs.Told.{WalksAs};
ghost use Rattle.c_type_trees.specs.Nested.{WalksTree};
ghost use Rattle.c_type_trees.specs.Specifying as spec;

use crate::held::released;
use crate::names::{first_specifier, first_token};
use crate::nested::{Tree, Typed};
use crate::types::{with_constant, with_storage, with_type, with_word};
use crate::walker::Walker;
use c_tree::typed::{Base, CType};
use c_tree::{Enumerator, Identifier, Specifier};
use c_type_declarators::{
    SpecifierParts, basis_of, enum_begun, enum_ended, enum_tag_row, following_number,
    plain_enumerator, struct_tag_row, typedef_named, valued_enumerator,
};
use c_type_rules::plain;
use c_type_walk::{Around, Found};
use c_typing::Basis;
use std::alloc::Global;
use word_ops::Memory;

impl<F: Fn(Global, &mut Found, &Around<'_>, u64, Tree<'_>) -> Result<Typed, Memory>> Walker<F> {
    /// What specifiers are as a whole (C11 6.7); whether they stand alone, without a declarator behind them, matters to a tag (C11
    /// 6.7.2.3p7).
    #[inline(never)]
    pub fn basis(
        &self,
        found: &mut Found,
        around: &Around<'_>,
        alone: bool,
        list: &[Specifier],
    ) -> Result<Option<Basis>, Memory>
        requires { Nests WalksTree self.now.more (F.pre self.now.inside) (F.post self.now.inside) }
        ensures { Walks (declarators.specifiers_row alone (map typing.specifier_typing list.now)) around.now found.old result found.new }
    {
        let mut parts = SpecifierParts::new(self.alloc);
        for one in list {
            let Some(more) = self.specifier(found, around, alone, parts, one)? else {
                return Ok(None);
            };
            parts = more;
        }
        basis_of(self.alloc, found, around, first_specifier(list), parts)
    }

    /// A specifier more (C11 6.7).
    fn specifier(
        &self,
        found: &mut Found,
        around: &Around<'_>,
        alone: bool,
        parts: SpecifierParts,
        tree: &Specifier,
    ) -> Result<Option<SpecifierParts>, Memory>
        requires { Nests WalksTree self.now.more (F.pre self.now.inside) (F.post self.now.inside) }
        ensures { WalksAs parts_of (declarators.with_specifier alone (parts_of parts) (typing.specifier_typing tree.now).specifying) around.now found.old result found.new }
    {
        match tree {
            Specifier::Storage(storage, _) => with_storage(parts, *storage),
            Specifier::Const(_) => Ok(with_constant(parts)),
            Specifier::Word(word, _) => with_word(parts, *word),
            Specifier::StructTag(_, _) => self.typed(found, around, alone, parts, tree),
            Specifier::Struct { .. } => self.typed(found, around, alone, parts, tree),
            Specifier::EnumTag(_, _) => self.typed(found, around, alone, parts, tree),
            Specifier::Enum { .. } => self.typed(found, around, alone, parts, tree),
            Specifier::TypedefName(_) => self.typed(found, around, alone, parts, tree),
        }
    }

    /// The type that a specifier names, behind the specifiers before it.
    fn typed(
        &self,
        found: &mut Found,
        around: &Around<'_>,
        alone: bool,
        parts: SpecifierParts,
        tree: &Specifier,
    ) -> Result<Option<SpecifierParts>, Memory>
        requires { Nests WalksTree self.now.more (F.pre self.now.inside) (F.post self.now.inside) }
        ensures { WalksAs parts_of (spec.with_named alone (parts_of parts) (typing.specifier_typing tree.now).specifying) around.now found.old result found.new }
    {
        let ctype = or_drop!(self.named(found, around, alone, tree), parts);
        with_type(parts, ctype)
    }

    /// The type that a specifier names (C11 6.7.2).
    fn named(
        &self,
        found: &mut Found,
        around: &Around<'_>,
        alone: bool,
        tree: &Specifier,
    ) -> Result<Option<CType>, Memory>
        requires { Nests WalksTree self.now.more (F.pre self.now.inside) (F.post self.now.inside) }
        ensures { Walks (spec.named_row alone (typing.specifier_typing tree.now).specifying) around.now found.old result found.new }
    {
        match tree {
            Specifier::Storage(_, _) => Ok(None),
            Specifier::Const(_) => Ok(None),
            Specifier::Word(_, _) => Ok(None),
            Specifier::StructTag(_, tag) => struct_tag_row(self.alloc, found, around, tag, alone),
            Specifier::Struct {
                word,
                tag,
                members: list,
                ..
            } => self.structure(found, around, *word, tag, list.as_slice()),
            Specifier::EnumTag(_, tag) => enum_tag_row(self.alloc, found, around, tag),
            Specifier::Enum {
                tag,
                enumerators,
                ..
            } => self.enumeration(found, around, tag, enumerators.as_slice()),
            Specifier::TypedefName(name) => typedef_named(self.alloc, found, around, name),
        }
    }

    /// An enumeration and its enumerators, the first from 0 (C11 6.7.2.2).
    fn enumeration(
        &self,
        found: &mut Found,
        around: &Around<'_>,
        tag: &Option<Identifier>,
        list: &[Enumerator],
    ) -> Result<Option<CType>, Memory>
        requires { Nests WalksTree self.now.more (F.pre self.now.inside) (F.post self.now.inside) }
        ensures { Walks (declarators.enum_row tag.now (map typing.enumerator_typing list.now)) around.now found.old result found.new }
    {
        let Some(number) = enum_begun(self.alloc, found, around, tag.as_ref())? else {
            return Ok(None);
        };
        let mut next = Some(0);
        for one in list {
            let value = self.enumerator(found, around, one, next)?;
            next = following_number(value);
        }
        enum_ended(self.alloc, found, around, tag.as_ref(), number)
    }

    /// An enumerator, from the value that it has without an expression (C11 6.7.2.2p3).
    fn enumerator(
        &self,
        found: &mut Found,
        around: &Around<'_>,
        tree: &Enumerator,
        next: Option<u32>,
    ) -> Result<Option<u32>, Memory>
        requires { Nests WalksTree self.now.more (F.pre self.now.inside) (F.post self.now.inside) }
        ensures { Walks ((typing.enumerator_typing tree.now).value next) around.now found.old result found.new }
    {
        match tree {
            Enumerator::Plain(_, name) => plain_enumerator(self.alloc, found, around, name, next),
            Enumerator::Valued(_, name, _, value) => {
                let operand = self.expr(found, around, value)?;
                let first = first_token(value);
                valued_enumerator(self.alloc, found, around, name, first, released(operand))
            }
        }
    }
}
