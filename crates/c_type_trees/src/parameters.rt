//! Parameter lists (C11 6.7.6.3).
//! Walks over parameters, in a scope of their own where they declare; the rows stand in c_type_declarators.

ghost use Rattle.std.specs.Prelude.{◌≡◌, map};
ghost use Rattle.c_typing.specs.OfTrees as spec;
ghost use Rattle.c_typing.specs.Scopes as scopes;
ghost use Rattle.c_typing.specs.Trees as typing;
ghost use Rattle.c_type_walk.specs.Nests.{Nests};
ghost use Rattle.c_type_walk.specs.Walks.{Walks};
ghost use Rattle.c_type_trees.specs.Lists as lists;
ghost use Rattle.c_type_trees.specs.Nested.{WalksTree};

use crate::names::{first_specifier, name};
use crate::nested::{Tree, Typed};
use crate::sequences::joined;
use crate::types::{
    adjusted_if_any, basis_type, copied_numbers, parameter_basis_if_any, parameter_if_both,
    register_of,
};
use crate::walker::Walker;
use c_tree::typed::CType;
use c_tree::{Declarator, Parameter, Pos};
use c_type_declarators::{function_part, name_place};
use c_type_walk::{Around, Found};
use c_typing::{Basis, Part};
use std::alloc::Global;
use word_ops::{Items, Memory};

/// A parameter as typed.
type TypedParameter = c_typing::Parameter;

impl<F: Fn(Global, &mut Found, &Around<'_>, u64, Tree<'_>) -> Result<Typed, Memory>> Walker<F> {
    /// A parameter list: that of a definition is in the scope of its block, and that of a declaration is a scope of its own
    /// (C11 6.2.1p4).
    pub fn parameter_list(
        &self,
        found: &mut Found,
        around: &Around<'_>,
        list: &[Parameter],
        defining: bool,
    ) -> Result<Option<Part>, Memory>
        requires { Nests WalksTree self.now.more (F.pre self.now.inside) (F.post self.now.inside) }
        ensures { Walks (spec.listing defining (spec.parameters_row 0 (map typing.parameter_typing list.now))) around.now found.old result found.new }
    {
        let all = self.listed(found, around, list, defining)?;
        Ok(Some(function_part(all)))
    }

    /// The parameters of such a list.
    fn listed(
        &self,
        found: &mut Found,
        around: &Around<'_>,
        list: &[Parameter],
        defining: bool,
    ) -> Result<Option<Items<TypedParameter>>, Memory>
        requires { Nests WalksTree self.now.more (F.pre self.now.inside) (F.post self.now.inside) }
        ensures { Walks (lists.listed defining (spec.parameters_row 0 (map typing.parameter_typing list.now))) around.now found.old result found.new }
    {
        if defining {
            self.of_definition(found, around, list)
        } else {
            self.prototype(found, around, list)
        }
    }

    /// The parameter list of a function definition stands in the scope of the function's block, which is left behind it
    /// (C11 6.2.1p4).
    fn of_definition(
        &self,
        found: &mut Found,
        around: &Around<'_>,
        list: &[Parameter],
    ) -> Result<Option<Items<TypedParameter>>, Memory>
        requires { Nests WalksTree self.now.more (F.pre self.now.inside) (F.post self.now.inside) }
        ensures { Walks (scopes.in_definition (spec.parameters_row 0 (map typing.parameter_typing list.now))) around.now found.old result found.new }
    {
        found.enter_definition(self.alloc);
        let all = self.parameters(found, &around.in_definition(), list)?;
        found.leave_definition(self.alloc);
        Ok(all)
    }

    /// A parameter list of a declaration is a scope of its own (C11 6.2.1p4), in which no object stands.
    fn prototype(
        &self,
        found: &mut Found,
        around: &Around<'_>,
        list: &[Parameter],
    ) -> Result<Option<Items<TypedParameter>>, Memory>
        requires { Nests WalksTree self.now.more (F.pre self.now.inside) (F.post self.now.inside) }
        ensures { Walks (spec.in_prototype (spec.parameters_row 0 (map typing.parameter_typing list.now))) around.now found.old result found.new }
    {
        let names = found.state.names.mark();
        let tags = found.state.tags.mark();
        let addressed = copied_numbers(self.alloc, &found.state.addressed)?;
        let inside = Around {
            at_file_level: false,
            ..around.in_scope(found)
        };
        let all = or_drop!(self.parameters(found, &inside, list), addressed);
        found.close(names, tags);
        found.state.addressed = addressed;
        Ok(all)
    }

    /// Parameters, numbered from 0.
    fn parameters(
        &self,
        found: &mut Found,
        around: &Around<'_>,
        list: &[Parameter],
    ) -> Result<Option<Items<TypedParameter>>, Memory>
        requires { Nests WalksTree self.now.more (F.pre self.now.inside) (F.post self.now.inside) }
        ensures { Walks (spec.parameters_row 0 (map typing.parameter_typing list.now)) around.now found.old result found.new }
    {
        let mut all = Some(Items::new(self.alloc));
        let mut number: u32 = 0;
        for one in list {
            let given = or_drop!(self.parameter(found, around, one, number), all);
            all = joined(all, given)?;
            let Some(next) = number.checked_add(1) else {
                drop(all);
                return Err(Memory);
            };
            number = next;
        }
        Ok(all)
    }

    /// A parameter of this number.
    fn parameter(
        &self,
        found: &mut Found,
        around: &Around<'_>,
        tree: &Parameter,
        number: u32,
    ) -> Result<Option<TypedParameter>, Memory>
        requires { Nests WalksTree self.now.more (F.pre self.now.inside) (F.post self.now.inside) }
        ensures { Walks (typing.parameter_typing tree.now number) around.now found.old result found.new }
    {
        let first = first_specifier(tree.specifiers.as_slice());
        let basis = self.specifiers(found, around, false, tree.specifiers.as_slice())?;
        let basis = parameter_basis_if_any(found, around, first, basis)?;
        let in_register = register_of(&basis);
        let ctype = self.parameter_type(found, around, &tree.declarator, first, basis)?;
        let name = name(&tree.declarator);
        parameter_if_both(
            self.alloc,
            found,
            around,
            name,
            first,
            number,
            in_register,
            ctype,
        )
    }

    /// The type of a parameter as adjusted (C11 6.7.6.3p7).
    fn parameter_type(
        &self,
        found: &mut Found,
        around: &Around<'_>,
        tree: &Declarator,
        first: Pos,
        basis: Option<Basis>,
    ) -> Result<Option<CType>, Memory>
        requires { Nests WalksTree self.now.more (F.pre self.now.inside) (F.post self.now.inside) }
        ensures { Walks (spec.parameter_type (typing.declarator_typing tree.now) first basis) around.now found.old result found.new }
    {
        let basis = basis_type(basis);
        let ctype = self.declared_type(found, around, tree, false, first, basis)?;
        adjusted_if_any(
            self.alloc,
            found,
            around,
            name_place(name(tree), first),
            ctype,
        )
    }
}
