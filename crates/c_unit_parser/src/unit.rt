//! Function definitions and units (C11 6.9).
//! What stands behind the first declarator tells a definition from a declaration.

ghost use Rattle.std.specs.Prelude.{◌≡◌, OnOk};
ghost use Rattle.c_tree.specs.Levels.Names.{Names};
ghost use Rattle.c_tree.specs.Levels.Facts.{Listing};
ghost use Rattle.c_expr_parser.specs.Reads.{Keeps};
ghost use Rattle.c_unit_grammar.specs.Read.Units as spec;
ghost use Rattle.c_unit_parser.specs.Beside.{listed as declared};
ghost use Rattle.c_unit_parser.specs.Reads.{Reads};
ghost use Rattle.c_unit_parser.specs.Nests.{Nests};
ghost use Rattle.c_unit_parser.specs.Parts as parts;

use crate::cursor::Cursor;
use crate::grammar::Grammar;
use crate::memory::{alone, pushed};
use crate::nodes::{Beside, beside_name};
use crate::wanted::{Found, Wanted};
use c_expr_parser::{ParseFault, or_drop};
use c_tree::{
    Block, Declaration, Declarator, Definition, External, InitDeclarator, Parameter, Punct,
    Specifiers,
};
use std::alloc::Global;
use word_ops::Items;

// A token is left.
fn goes_external(input: &Cursor<'_>) -> bool
    ensures { result ≡ spec.goes_external input.now.state }
{
    input.kind().is_some()
}

impl<F: Fn(Global, &mut Cursor<'_>, u32, Wanted) -> Result<Found, ParseFault>> Grammar<F> {
    // The block of a definition, whose scope has what the parameter list beside the name declares (C11 6.9.1p9).
    #[tactic(auto, using(c_expr_parser::proofs::Marks::mark_is_in, c_expr_parser::proofs::Marks::kept_back), unfolding(c_unit_grammar::specs::Read::Units::function_body))]
    fn function_body(
        &self,
        input: &mut Cursor<'_>,
        listed: &[Parameter],
    ) -> Result<Block, ParseFault>
        requires { Nests self.now.more (F.pre self.now.inside) (F.post self.now.inside) }
        ensures reads { (names : Names) → Reads (spec.function_body self.now.more (Listing (declared listed.now names)) input.old.state) input.old.end result input.new }
        ensures keeps { OnOk result (Keeps input.old.state input.new.state) }
        ensures ends { input.new.end ≡ input.old.end }
    {
        let scope = input.mark();
        input.declare_parameters(self.alloc, listed)?;
        let body = self.block(input, false)?;
        input.leave(scope);
        Ok(body)
    }

    // What stands behind the declarator of a declaration.
    #[tactic(auto, using(crate::proofs::Firsts::declaration_from_is))]
    fn declaration_from(
        &self,
        input: &mut Cursor<'_>,
        specifiers: Specifiers,
        declarator: Declarator,
    ) -> Result<External, ParseFault>
        requires { Nests self.now.more (F.pre self.now.inside) (F.post self.now.inside) }
        ensures reads { Reads (spec.declaration_from self.now.more specifiers declarator input.old.state) input.old.end result input.new }
        ensures keeps { OnOk result (Keeps input.old.state input.new.state) }
        ensures ends { input.new.end ≡ input.old.end }
    {
        let start = or_drop!(self.start(input), specifiers, declarator);
        let first = InitDeclarator {
            comma: None,
            declarator,
            start,
        };
        let declarators = or_drop!(
            self.more_declarators(input, specifiers.as_slice(), first),
            specifiers
        );
        let semicolon = or_drop!(input.expect(Punct::Semicolon), specifiers, declarators);
        Ok(External::Declaration(Declaration {
            specifiers,
            declarators,
            semicolon,
        }))
    }

    fn no_declarators(
        &self,
        input: &mut Cursor<'_>,
        specifiers: Specifiers,
    ) -> Result<External, ParseFault>
        requires { Nests self.now.more (F.pre self.now.inside) (F.post self.now.inside) }
        ensures reads { Reads (spec.no_declarators self.now.more specifiers input.old.state) input.old.end result input.new }
        ensures keeps { OnOk result (Keeps input.old.state input.new.state) }
        ensures ends { input.new.end ≡ input.old.end }
    {
        let semicolon = or_drop!(input.expect(Punct::Semicolon), specifiers);
        Ok(External::Declaration(Declaration {
            specifiers,
            declarators: Items::new(self.alloc),
            semicolon,
        }))
    }

    // A `{` behind a declarator with a parameter list beside its name begins the block of a definition.
    fn with_declarator(
        &self,
        input: &mut Cursor<'_>,
        specifiers: Specifiers,
    ) -> Result<External, ParseFault>
        requires { Nests self.now.more (F.pre self.now.inside) (F.post self.now.inside) }
        ensures reads { Reads (spec.with_declarator self.now.more specifiers input.old.state) input.old.end result input.new }
        ensures keeps { OnOk result (Keeps input.old.state input.new.state) }
        ensures ends { input.new.end ≡ input.old.end }
    {
        let declarator = or_drop!(self.named(input, specifiers.as_slice()), specifiers);
        if input.sees(Punct::LeftBrace) {
            if let Beside::Listing(listed) = beside_name(&declarator) {
                let body = or_drop!(self.function_body(input, listed), specifiers, declarator);
                return Ok(External::Definition(Definition {
                    specifiers,
                    declarator,
                    body,
                }));
            }
        }
        self.declaration_from(input, specifiers, declarator)
    }

    /// A declaration or a definition.
    #[tactic(auto, unfolding(c_unit_grammar::specs::Read::Units::one_external))]
    fn external(&self, input: &mut Cursor<'_>) -> Result<External, ParseFault>
        requires { Nests self.now.more (F.pre self.now.inside) (F.post self.now.inside) }
        ensures reads { Reads (spec.one_external self.now.more input.old.state) input.old.end result input.new }
        ensures keeps { OnOk result (Keeps input.old.state input.new.state) }
        ensures ends { input.new.end ≡ input.old.end }
    {
        let specifiers = input.specifiers(self.alloc, self.more)?;
        if input.sees(Punct::Semicolon) {
            return self.no_declarators(input, specifiers);
        }
        self.with_declarator(input, specifiers)
    }

    /// Declarations and definitions to the end of the tokens, at least one.
    #[tactic(auto, unfolding(crate::specs::Parts::externals))]
    pub fn externals(&self, input: &mut Cursor<'_>) -> Result<Items<External>, ParseFault>
        requires { Nests self.now.more (F.pre self.now.inside) (F.post self.now.inside) }
        ensures reads { Reads (parts.externals self.now.more input.old.state) input.old.end result input.new }
        ensures keeps { OnOk result (Keeps input.old.state input.new.state) }
        ensures ends { input.new.end ≡ input.old.end }
    {
        let first = self.external(input)?;
        let mut found = alone(self.alloc, first)?;
        for _turn in 0..input.left() {
            if !goes_external(input) {
                return Ok(found);
            }
            let next = or_drop!(self.external(input), found);
            found = pushed(self.alloc, found, next)?;
        }
        Ok(found)
    }
}
