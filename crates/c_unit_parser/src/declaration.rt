//! Declarations (C11 6.7).
//! Each declarator is visible from its end, its initialiser included.

ghost use Rattle.std.specs.Prelude.{◌≡◌, OnOk};
ghost use Rattle.c_tree.specs.Levels.Trees.{declarator_level};
ghost use Rattle.c_expr_parser.specs.Reads.{Keeps};
ghost use Rattle.c_unit_grammar.specs.Read.Declarations as spec;
ghost use Rattle.c_unit_parser.specs.Reads.{Reads, ReadsAs};
ghost use Rattle.c_unit_parser.specs.Nests.{Nests};
ghost use Rattle.c_unit_parser.specs.Parts as parts;

use crate::cursor::Cursor;
use crate::grammar::Grammar;
use crate::memory::{alone, pushed};
use crate::wanted::{Found, Wanted};
use c_expr_parser::{ParseFault, declared_name, have_typedef, name_type, or_drop};
use c_tree::{Declaration, Declarator, InitDeclarator, Punct, Specifier, Start};
use std::alloc::Global;
use word_ops::Items;

impl<F: Fn(Global, &mut Cursor<'_>, u32, Wanted) -> Result<Found, ParseFault>> Grammar<F> {
    /// A declarator with a name, which is visible from its end.
    #[tactic(auto, unfolding(c_unit_grammar::specs::Read::Declarations::named))]
    pub fn named(
        &self,
        input: &mut Cursor<'_>,
        specifiers: &[Specifier],
    ) -> Result<Declarator, ParseFault>
        requires { Nests self.now.more (F.pre self.now.inside) (F.post self.now.inside) }
        ensures reads { ReadsAs (λ tree. (tree, (declarator_level tree input.old.state.0).0.beside)) (spec.named self.now.more specifiers.now input.old.state) input.old.end result input.new }
        ensures keeps { OnOk result (Keeps input.old.state input.new.state) }
        ensures ends { input.new.end ≡ input.old.end }
    {
        let tree = input.declarator(self.alloc, self.more, name_type(specifiers))?;
        if let Some(name) = declared_name(&tree) {
            let is_typedef = have_typedef(specifiers);
            or_drop!(input.declare(self.alloc, name, is_typedef), tree);
        }
        Ok(tree)
    }

    fn some_start(&self, input: &mut Cursor<'_>) -> Result<Option<Start>, ParseFault>
        requires { Nests self.now.more (F.pre self.now.inside) (F.post self.now.inside) }
        ensures reads { Reads (spec.some_start self.now.more input.old.state) input.old.end result input.new }
        ensures keeps { OnOk result (Keeps input.old.state input.new.state) }
        ensures ends { input.new.end ≡ input.old.end }
    {
        let equals = input.expect(Punct::Assign)?;
        let value = self.initialiser(input)?;
        Ok(Some(Start { equals, value }))
    }

    /// `=` and an initialiser, where they stand.
    #[tactic(auto, unfolding(c_unit_grammar::specs::Read::Declarations::start))]
    pub fn start(&self, input: &mut Cursor<'_>) -> Result<Option<Start>, ParseFault>
        requires { Nests self.now.more (F.pre self.now.inside) (F.post self.now.inside) }
        ensures reads { Reads (spec.start self.now.more input.old.state) input.old.end result input.new }
        ensures keeps { OnOk result (Keeps input.old.state input.new.state) }
        ensures ends { input.new.end ≡ input.old.end }
    {
        if input.sees(Punct::Assign) {
            return self.some_start(input);
        }
        Ok(None)
    }

    #[tactic(auto, unfolding(c_unit_grammar::specs::Read::Declarations::first_declarator))]
    fn first_declarator(
        &self,
        input: &mut Cursor<'_>,
        specifiers: &[Specifier],
    ) -> Result<InitDeclarator, ParseFault>
        requires { Nests self.now.more (F.pre self.now.inside) (F.post self.now.inside) }
        ensures reads { Reads (spec.first_declarator self.now.more specifiers.now input.old.state) input.old.end result input.new }
        ensures keeps { OnOk result (Keeps input.old.state input.new.state) }
        ensures ends { input.new.end ≡ input.old.end }
    {
        let declarator = self.named(input, specifiers)?;
        let start = or_drop!(self.start(input), declarator);
        Ok(InitDeclarator {
            comma: None,
            declarator,
            start,
        })
    }

    #[tactic(auto, unfolding(c_unit_grammar::specs::Read::Declarations::next_declarator))]
    fn next_declarator(
        &self,
        input: &mut Cursor<'_>,
        specifiers: &[Specifier],
    ) -> Result<InitDeclarator, ParseFault>
        requires { Nests self.now.more (F.pre self.now.inside) (F.post self.now.inside) }
        ensures reads { Reads (spec.next_declarator self.now.more specifiers.now input.old.state) input.old.end result input.new }
        ensures keeps { OnOk result (Keeps input.old.state input.new.state) }
        ensures ends { input.new.end ≡ input.old.end }
    {
        let comma = Some(input.expect(Punct::Comma)?);
        let declarator = self.named(input, specifiers)?;
        let start = or_drop!(self.start(input), declarator);
        Ok(InitDeclarator {
            comma,
            declarator,
            start,
        })
    }

    /// The declarators behind the first, which is there already.
    #[tactic(auto, unfolding(crate::specs::Parts::more_declarators))]
    pub fn more_declarators(
        &self,
        input: &mut Cursor<'_>,
        specifiers: &[Specifier],
        first: InitDeclarator,
    ) -> Result<Items<InitDeclarator>, ParseFault>
        requires { Nests self.now.more (F.pre self.now.inside) (F.post self.now.inside) }
        ensures reads { Reads (parts.more_declarators self.now.more specifiers.now first input.old.state) input.old.end result input.new }
        ensures keeps { OnOk result (Keeps input.old.state input.new.state) }
        ensures ends { input.new.end ≡ input.old.end }
    {
        let mut found = alone(self.alloc, first)?;
        for _turn in 0..input.left() {
            if !input.sees(Punct::Comma) {
                return Ok(found);
            }
            let next = or_drop!(self.next_declarator(input, specifiers), found);
            found = pushed(self.alloc, found, next)?;
        }
        Ok(found)
    }

    #[tactic(auto, using(crate::proofs::Firsts::some_declarators_are), unfolding(c_unit_grammar::specs::Read::Declarations::declarators))]
    fn declarators(
        &self,
        input: &mut Cursor<'_>,
        specifiers: &[Specifier],
    ) -> Result<Items<InitDeclarator>, ParseFault>
        requires { Nests self.now.more (F.pre self.now.inside) (F.post self.now.inside) }
        ensures reads { Reads (spec.declarators self.now.more specifiers.now input.old.state) input.old.end result input.new }
        ensures keeps { OnOk result (Keeps input.old.state input.new.state) }
        ensures ends { input.new.end ≡ input.old.end }
    {
        if input.sees(Punct::Semicolon) {
            return Ok(Items::new(self.alloc));
        }
        let first = self.first_declarator(input, specifiers)?;
        self.more_declarators(input, specifiers, first)
    }

    /// Specifiers, declarators with their initialisers, `;`.
    #[tactic(auto, unfolding(c_unit_grammar::specs::Read::Declarations::declaration))]
    pub fn declaration(&self, input: &mut Cursor<'_>) -> Result<Declaration, ParseFault>
        requires { Nests self.now.more (F.pre self.now.inside) (F.post self.now.inside) }
        ensures reads { Reads (spec.declaration self.now.more input.old.state) input.old.end result input.new }
        ensures keeps { OnOk result (Keeps input.old.state input.new.state) }
        ensures ends { input.new.end ≡ input.old.end }
    {
        let specifiers = input.specifiers(self.alloc, self.more)?;
        let declarators = or_drop!(self.declarators(input, specifiers.as_slice()), specifiers);
        let semicolon = or_drop!(input.expect(Punct::Semicolon), specifiers, declarators);
        Ok(Declaration {
            specifiers,
            declarators,
            semicolon,
        })
    }
}
