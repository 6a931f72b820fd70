//! The walker, and what it walks over inside other trees.
//! Walks by the function value that the walker holds, so that none of them leads back to itself.

ghost use Rattle.std.specs.Prelude.{◌≡◌, map};
ghost use Rattle.c_typing.specs.Declarators as declarators;
ghost use Rattle.c_typing.specs.Trees as typing;
ghost use Rattle.c_type_walk.specs.Nests.{Nests};
ghost use Rattle.c_type_walk.specs.Walks.{Walks};
ghost use Rattle.c_type_trees.specs.Nested.{WalksTree};

use crate::names::name;
use crate::nested::{Tree, Typed};
use crate::types::{basis_type, derive_if_both};
use c_tree::typed::CType;
use c_tree::{Declarator, Expr, Pos, Specifier, TypeName};
use c_type_declarators::name_place;
use c_type_walk::{Around, Found};
use c_typing::{Basis, Operand, Part};
use std::alloc::Global;
use word_ops::{Boxed, Items, Memory};

/// A walk over trees, where `more` trees may still stand inside one another. `inside` walks over those.
#[derive(Clone, Copy)]
pub(crate) struct Walker<F> {
    pub alloc: Global,
    pub more: u64,
    pub inside: F,
}

impl<F: Fn(Global, &mut Found, &Around<'_>, u64, Tree<'_>) -> Result<Typed, Memory>> Walker<F> {
    /// What typing makes of an expression inside another tree (C11 6.5).
    pub fn expr(
        &self,
        found: &mut Found,
        around: &Around<'_>,
        tree: &Expr,
    ) -> Result<Option<Boxed<Operand>>, Memory>
        requires { Nests WalksTree self.now.more (F.pre self.now.inside) (F.post self.now.inside) }
        ensures { Walks (typing.expr_typing tree.now).typed around.now found.old result found.new }
    {
        match (self.inside)(self.alloc, found, around, self.more, Tree::Expression(tree))? {
            Typed::Operand(operand) => Ok(operand),
            Typed::Basis(_) | Typed::Parts(_) => unreachable!(),
        }
    }

    /// What specifiers inside another tree are as a whole (C11 6.7).
    pub fn specifiers(
        &self,
        found: &mut Found,
        around: &Around<'_>,
        alone: bool,
        list: &[Specifier],
    ) -> Result<Option<Basis>, Memory>
        requires { Nests WalksTree self.now.more (F.pre self.now.inside) (F.post self.now.inside) }
        ensures { Walks (declarators.specifiers_row alone (map typing.specifier_typing list.now)) around.now found.old result found.new }
    {
        match (self.inside)(
            self.alloc,
            found,
            around,
            self.more,
            Tree::Specifiers(alone, list),
        )? {
            Typed::Basis(basis) => Ok(basis),
            Typed::Operand(_) | Typed::Parts(_) => unreachable!(),
        }
    }

    /// The derivations of a declarator inside another tree (C11 6.7.6).
    pub fn parts(
        &self,
        found: &mut Found,
        around: &Around<'_>,
        tree: &Declarator,
        defining: bool,
    ) -> Result<Option<Items<Part>>, Memory>
        requires { Nests WalksTree self.now.more (F.pre self.now.inside) (F.post self.now.inside) }
        ensures { Walks ((typing.declarator_typing tree.now).parts defining) around.now found.old result found.new }
    {
        match (self.inside)(
            self.alloc,
            found,
            around,
            self.more,
            Tree::Declarator(defining, tree),
        )? {
            Typed::Parts(parts) => Ok(parts),
            Typed::Operand(_) | Typed::Basis(_) => unreachable!(),
        }
    }

    /// The type that a declarator makes of another one (C11 6.7.6p4, p5); the place stands for the name where there is none.
    pub fn declared_type(
        &self,
        found: &mut Found,
        around: &Around<'_>,
        tree: &Declarator,
        defining: bool,
        place: Pos,
        basis: Option<CType>,
    ) -> Result<Option<CType>, Memory>
        requires { Nests WalksTree self.now.more (F.pre self.now.inside) (F.post self.now.inside) }
        ensures { Walks (declarators.declared_type (typing.declarator_typing tree.now) defining place basis) around.now found.old result found.new }
    {
        let all = or_drop!(self.parts(found, around, tree, defining), basis);
        let place = name_place(name(tree), place);
        derive_if_both(self.alloc, found, around, place, all, basis)
    }

    /// The type that a type name names (C11 6.7.7), at the operator to which it belongs.
    pub fn type_name(
        &self,
        found: &mut Found,
        around: &Around<'_>,
        place: Pos,
        tree: &TypeName,
    ) -> Result<Option<CType>, Memory>
        requires { Nests WalksTree self.now.more (F.pre self.now.inside) (F.post self.now.inside) }
        ensures { Walks ((typing.type_name_typing tree.now).typed place) around.now found.old result found.new }
    {
        let basis = self.specifiers(found, around, false, tree.specifiers.as_slice())?;
        let basis = basis_type(basis);
        self.declared_type(found, around, &tree.declarator, false, place, basis)
    }
}
