//! The productions, and what they read inside brackets.
//! What stands inside a bracket comes from the function value `inside`, as one of three kinds of trees.

ghost use Rattle.std.specs.Prelude.{◌≡◌};
ghost use Rattle.c_grammar.specs.Read.Depth.{inside};
ghost use Rattle.c_grammar.specs.Read.Inner as inner;
ghost use Rattle.c_expr_parser.specs.Numbers.{within_number, use_of};
ghost use Rattle.c_expr_parser.specs.Reads.{Reads, Keeps};
ghost use Rattle.c_expr_parser.specs.Nests.{Nests};

use crate::cursor::Cursor;
use crate::fault::Stop;
use crate::nodes::name_type;
use crate::wanted::{Found, Use, Wanted, Within};
use c_tree::{Declarator, Expr, Specifiers, TypeName};
use std::alloc::Global;

/// The productions where `more` brackets may still be opened. `inside` reads what stands inside one.
#[derive(Clone, Copy)]
pub struct Grammar<F> {
    pub alloc: Global,
    pub more: usize,
    pub inside: F,
}

impl<F: Fn(Global, &mut Cursor<'_>, usize, Wanted) -> Result<Found, Stop>> Grammar<F> {
    /// An expression of this production inside a bracket.
    pub fn expr(&self, input: &mut Cursor<'_>, within: Within) -> Result<Expr, Stop>
        requires { Nests self.now.more (F.pre self.now.inside) (F.post self.now.inside) }
        ensures reads { Reads ((inside self.now.more).expr (within_number within) input.old) result input.new }
        ensures keeps { Keeps input.old input.new }
    {
        match (self.inside)(self.alloc, input, self.more, Wanted::Expression(within))? {
            Found::Expression(tree) => Ok(tree),
            Found::Specifiers(_) | Found::Declarator(_) => unreachable!(),
        }
    }

    /// Specifiers inside a bracket.
    pub fn nested_specifiers(
        &self,
        input: &mut Cursor<'_>,
        with_storage: bool,
    ) -> Result<Specifiers, Stop>
        requires { Nests self.now.more (F.pre self.now.inside) (F.post self.now.inside) }
        ensures reads { Reads ((inside self.now.more).specifiers with_storage input.old) result input.new }
        ensures keeps { Keeps input.old input.new }
    {
        match (self.inside)(
            self.alloc,
            input,
            self.more,
            Wanted::Specifiers(with_storage),
        )? {
            Found::Specifiers(tree) => Ok(tree),
            Found::Expression(_) | Found::Declarator(_) => unreachable!(),
        }
    }

    /// A declarator inside a bracket.
    pub fn nested_declarator(
        &self,
        input: &mut Cursor<'_>,
        purpose: Use,
        typed: bool,
    ) -> Result<Declarator, Stop>
        requires { Nests self.now.more (F.pre self.now.inside) (F.post self.now.inside) }
        ensures reads { Reads ((inside self.now.more).declarator (use_of purpose) typed input.old) result input.new }
        ensures keeps { Keeps input.old input.new }
    {
        match (self.inside)(
            self.alloc,
            input,
            self.more,
            Wanted::Declarator(purpose, typed),
        )? {
            Found::Declarator(tree) => Ok(tree),
            Found::Expression(_) | Found::Specifiers(_) => unreachable!(),
        }
    }

    /// A type name (C11 6.7.7).
    #[tactic(auto, unfolding(c_grammar::specs::Read::Inner::type_name))]
    pub fn type_name(&self, input: &mut Cursor<'_>) -> Result<TypeName, Stop>
        requires { Nests self.now.more (F.pre self.now.inside) (F.post self.now.inside) }
        ensures reads { Reads (inner.type_name (inside self.now.more) input.old) result input.new }
        ensures keeps { Keeps input.old input.new }
    {
        let specifiers = self.nested_specifiers(input, false)?;
        let typed = name_type(specifiers.as_slice());
        let declarator = or_drop!(
            self.nested_declarator(input, Use::Abstract, typed),
            specifiers
        );
        Ok(TypeName {
            specifiers,
            declarator,
        })
    }
}
