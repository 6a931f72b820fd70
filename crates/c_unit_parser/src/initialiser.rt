//! Initialisers (C11 6.7.9).
//! An assignment expression, or initialisers in braces, which nest.

ghost use Rattle.std.specs.Prelude.{◌≡◌, OnOk};
ghost use Rattle.c_grammar.specs.Read.Specifiers as specifiers;
ghost use Rattle.c_expr_parser.specs.Reads.{Keeps};
ghost use Rattle.c_unit_grammar.specs.Read.Initialisers as spec;
ghost use Rattle.c_unit_parser.specs.Reads.{Reads};
ghost use Rattle.c_unit_parser.specs.Nests.{Nests};
ghost use Rattle.c_unit_parser.specs.Parts as parts;

use crate::cursor::Cursor;
use crate::grammar::Grammar;
use crate::memory::{alone, pushed};
use crate::wanted::{Found, Wanted};
use c_expr_parser::{ParseFault, is_mark, or_drop};
use c_tree::{Initialiser, InitialiserItem, Pos, Punct};
use std::alloc::Global;
use word_ops::Items;

// A comma comes next, behind which no brace closes.
fn goes_initialiser(input: &Cursor<'_>) -> bool
    ensures { result ≡ spec.goes_initialiser input.now.state }
{
    input.sees(Punct::Comma) && !is_mark(input.second(), Punct::RightBrace)
}

fn last_comma(input: &mut Cursor<'_>) -> Result<Option<Pos>, ParseFault>
    ensures reads { Reads (specifiers.optional_comma input.old.state) input.old.end result input.new }
    ensures keeps { OnOk result (Keeps input.old.state input.new.state) }
    ensures ends { input.new.end ≡ input.old.end }
{
    if input.sees(Punct::Comma) {
        return Ok(Some(input.expect(Punct::Comma)?));
    }
    Ok(None)
}

impl<F: Fn(Global, &mut Cursor<'_>, u32, Wanted) -> Result<Found, ParseFault>> Grammar<F> {
    #[tactic(auto, unfolding(c_unit_grammar::specs::Read::Initialisers::assigned))]
    fn assigned(&self, input: &mut Cursor<'_>) -> Result<Initialiser, ParseFault>
        requires { Nests self.now.more (F.pre self.now.inside) (F.post self.now.inside) }
        ensures reads { Reads (spec.assigned self.now.more (spec.inside_initialiser self.now.more) input.old.state) input.old.end result input.new }
        ensures keeps { OnOk result (Keeps input.old.state input.new.state) }
        ensures ends { input.new.end ≡ input.old.end }
    {
        let value = input.assignment(self.alloc, self.more)?;
        Ok(Initialiser::Expression(value))
    }

    #[tactic(auto, unfolding(c_unit_grammar::specs::Read::Initialisers::first_initialiser))]
    fn first_initialiser(&self, input: &mut Cursor<'_>) -> Result<InitialiserItem, ParseFault>
        requires { Nests self.now.more (F.pre self.now.inside) (F.post self.now.inside) }
        ensures reads { Reads (spec.first_initialiser self.now.more (spec.inside_initialiser self.now.more) input.old.state) input.old.end result input.new }
        ensures keeps { OnOk result (Keeps input.old.state input.new.state) }
        ensures ends { input.new.end ≡ input.old.end }
    {
        let value = self.nested_initialiser(input)?;
        Ok(InitialiserItem { comma: None, value })
    }

    #[tactic(auto, unfolding(c_unit_grammar::specs::Read::Initialisers::next_initialiser))]
    fn next_initialiser(&self, input: &mut Cursor<'_>) -> Result<InitialiserItem, ParseFault>
        requires { Nests self.now.more (F.pre self.now.inside) (F.post self.now.inside) }
        ensures reads { Reads (spec.next_initialiser self.now.more (spec.inside_initialiser self.now.more) input.old.state) input.old.end result input.new }
        ensures keeps { OnOk result (Keeps input.old.state input.new.state) }
        ensures ends { input.new.end ≡ input.old.end }
    {
        let comma = Some(input.expect(Punct::Comma)?);
        let value = self.nested_initialiser(input)?;
        Ok(InitialiserItem { comma, value })
    }

    #[tactic(auto, unfolding(crate::specs::Parts::initialisers))]
    fn initialisers(&self, input: &mut Cursor<'_>) -> Result<Items<InitialiserItem>, ParseFault>
        requires { Nests self.now.more (F.pre self.now.inside) (F.post self.now.inside) }
        ensures reads { Reads (parts.initialisers self.now.more input.old.state) input.old.end result input.new }
        ensures keeps { OnOk result (Keeps input.old.state input.new.state) }
        ensures ends { input.new.end ≡ input.old.end }
    {
        let first = self.first_initialiser(input)?;
        let mut found = alone(self.alloc, first)?;
        for _turn in 0..input.left() {
            if !goes_initialiser(input) {
                return Ok(found);
            }
            let next = or_drop!(self.next_initialiser(input), found);
            found = pushed(self.alloc, found, next)?;
        }
        Ok(found)
    }

    #[tactic(auto, using(crate::proofs::Firsts::in_braces_is))]
    fn in_braces(&self, input: &mut Cursor<'_>) -> Result<Initialiser, ParseFault>
        requires { Nests self.now.more (F.pre self.now.inside) (F.post self.now.inside) }
        ensures reads { Reads (spec.in_braces self.now.more (spec.inside_initialiser self.now.more) input.old.state) input.old.end result input.new }
        ensures keeps { OnOk result (Keeps input.old.state input.new.state) }
        ensures ends { input.new.end ≡ input.old.end }
    {
        let opening = input.opening(self.more, Punct::LeftBrace)?;
        let items = self.initialisers(input)?;
        let comma = or_drop!(last_comma(input), items);
        let closing = or_drop!(input.expect(Punct::RightBrace), items);
        Ok(Initialiser::List {
            opening,
            items,
            comma,
            closing,
        })
    }

    /// An assignment expression, or initialisers in braces.
    #[tactic(auto, unfolding(c_unit_grammar::specs::Read::Initialisers::initialiser, c_unit_grammar::specs::Read::Initialisers::inside_initialiser, c_unit_grammar::specs::Read::Initialisers::one_initialiser))]
    pub fn initialiser(&self, input: &mut Cursor<'_>) -> Result<Initialiser, ParseFault>
        requires { Nests self.now.more (F.pre self.now.inside) (F.post self.now.inside) }
        ensures reads { Reads (spec.initialiser self.now.more input.old.state) input.old.end result input.new }
        ensures keeps { OnOk result (Keeps input.old.state input.new.state) }
        ensures ends { input.new.end ≡ input.old.end }
    {
        if input.sees(Punct::LeftBrace) {
            return self.in_braces(input);
        }
        self.assigned(input)
    }
}
