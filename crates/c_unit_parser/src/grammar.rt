//! The productions, and what they read that is nested by one more.
//! It comes from the function value `inside`, as one of four kinds of trees.

ghost use Rattle.std.specs.Prelude.{◌≡◌, OnOk};
ghost use Rattle.c_expr_parser.specs.Reads.{Keeps};
ghost use Rattle.c_unit_grammar.specs.Read.Initialisers.{inside_initialiser};
ghost use Rattle.c_unit_grammar.specs.Read.Declarations.{inside_declaration};
ghost use Rattle.c_unit_grammar.specs.Read.Statements.{within};
ghost use Rattle.c_unit_parser.specs.Reads.{Reads};
ghost use Rattle.c_unit_parser.specs.Nests.{Nests};

use crate::cursor::Cursor;
use crate::wanted::{Found, Wanted};
use c_expr_parser::ParseFault;
use c_tree::{BlockItem, Declaration, Initialiser, Stmt};
use std::alloc::Global;

/// The productions where `more` brackets and bodies may still be nested. `inside` reads what stands in one.
#[derive(Clone, Copy)]
pub struct Grammar<F> {
    pub alloc: Global,
    pub more: u32,
    pub inside: F,
}

impl<F: Fn(Global, &mut Cursor<'_>, u32, Wanted) -> Result<Found, ParseFault>> Grammar<F> {
    pub fn nested_initialiser(&self, input: &mut Cursor<'_>) -> Result<Initialiser, ParseFault>
        requires { Nests self.now.more (F.pre self.now.inside) (F.post self.now.inside) }
        ensures reads { Reads (inside_initialiser self.now.more input.old.state) input.old.end result input.new }
        ensures keeps { OnOk result (Keeps input.old.state input.new.state) }
        ensures ends { input.new.end ≡ input.old.end }
    {
        match (self.inside)(self.alloc, input, self.more, Wanted::Initialiser)? {
            Found::Initialiser(tree) => Ok(tree),
            Found::Declaration(_) | Found::Item(_) | Found::Body(_) => unreachable!(),
        }
    }

    pub fn nested_declaration(&self, input: &mut Cursor<'_>) -> Result<Declaration, ParseFault>
        requires { Nests self.now.more (F.pre self.now.inside) (F.post self.now.inside) }
        ensures reads { Reads (inside_declaration self.now.more input.old.state) input.old.end result input.new }
        ensures keeps { OnOk result (Keeps input.old.state input.new.state) }
        ensures ends { input.new.end ≡ input.old.end }
    {
        match (self.inside)(self.alloc, input, self.more, Wanted::Declaration)? {
            Found::Declaration(tree) => Ok(tree),
            Found::Initialiser(_) | Found::Item(_) | Found::Body(_) => unreachable!(),
        }
    }

    pub fn nested_item(&self, input: &mut Cursor<'_>, labels: bool) -> Result<BlockItem, ParseFault>
        requires { Nests self.now.more (F.pre self.now.inside) (F.post self.now.inside) }
        ensures reads { Reads ((within self.now.more).item labels input.old.state) input.old.end result input.new }
        ensures keeps { OnOk result (Keeps input.old.state input.new.state) }
        ensures ends { input.new.end ≡ input.old.end }
    {
        match (self.inside)(self.alloc, input, self.more, Wanted::Item(labels))? {
            Found::Item(tree) => Ok(tree),
            Found::Initialiser(_) | Found::Declaration(_) | Found::Body(_) => unreachable!(),
        }
    }

    pub fn nested_body(&self, input: &mut Cursor<'_>) -> Result<Stmt, ParseFault>
        requires { Nests self.now.more (F.pre self.now.inside) (F.post self.now.inside) }
        ensures reads { Reads ((within self.now.more).body input.old.state) input.old.end result input.new }
        ensures keeps { OnOk result (Keeps input.old.state input.new.state) }
        ensures ends { input.new.end ≡ input.old.end }
    {
        match (self.inside)(self.alloc, input, self.more, Wanted::Body)? {
            Found::Body(tree) => Ok(tree),
            Found::Initialiser(_) | Found::Declaration(_) | Found::Item(_) => unreachable!(),
        }
    }
}
