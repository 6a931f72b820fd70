//! The recursion on what may still be nested.
//! It makes the grammar of what may still be nested and hands itself to it.

ghost use Rattle.std.specs.Prelude.{◌≡◌, suc, ◌≤◌, OnOk};
ghost use Rattle.c_tree.specs.Levelled.{nesting_limit};
ghost use Rattle.c_expr_parser.specs.Reads.{Keeps};
ghost use Rattle.c_unit_parser.specs.Wanted.{read};
ghost use Rattle.c_unit_parser.specs.Reads.{Reads};
ghost use Rattle.c_unit_parser.specs.Nests.{Nests};

use crate::cursor::Cursor;
use crate::grammar::Grammar;
use crate::wanted::{Found, Wanted};
use c_expr_parser::ParseFault;
use std::alloc::Global;

/// Where no more may be nested, a body that is no block is nested too deeply at the first token of a statement.
#[tactic(auto, unfolding(c_unit_grammar::specs::Read::Initialisers::inside_initialiser, c_unit_grammar::specs::Read::Declarations::inside_declaration, c_unit_grammar::specs::Read::Statements::within))]
pub fn nowhere(input: &Cursor<'_>, wanted: Wanted) -> Result<Found, ParseFault>
    ensures { Reads (read 0 wanted input.now.state) input.now.end result input.now }
{
    match wanted {
        Wanted::Body => {
            if input.begins_statement() {
                Err(input.too_deep())
            } else {
                Err(input.syntax())
            }
        }
        Wanted::Initialiser | Wanted::Declaration | Wanted::Item(_) => Err(input.too_deep()),
    }
}

impl<F: Fn(Global, &mut Cursor<'_>, u32, Wanted) -> Result<Found, ParseFault>> Grammar<F> {
    /// What is wanted.
    #[tactic(auto, unfolding(c_unit_grammar::specs::Read::Initialisers::initialiser, c_unit_grammar::specs::Read::Initialisers::inside_initialiser, c_unit_grammar::specs::Read::Declarations::inside_declaration, c_unit_grammar::specs::Read::Statements::within))]
    fn read(&self, input: &mut Cursor<'_>, wanted: Wanted) -> Result<Found, ParseFault>
        requires { Nests self.now.more (F.pre self.now.inside) (F.post self.now.inside) }
        ensures reads { Reads (read (suc self.now.more) wanted input.old.state) input.old.end result input.new }
        ensures keeps { OnOk result (Keeps input.old.state input.new.state) }
        ensures ends { input.new.end ≡ input.old.end }
    {
        match wanted {
            Wanted::Initialiser => Ok(Found::Initialiser(self.initialiser(input)?)),
            Wanted::Declaration => Ok(Found::Declaration(self.declaration(input)?)),
            Wanted::Item(labels) => Ok(Found::Item(self.item(input, labels)?)),
            Wanted::Body => Ok(Found::Body(self.statement(input)?)),
        }
    }
}

/// What is wanted, nested by one more; so many could be nested with that one.
pub fn inside(
    alloc: Global,
    input: &mut Cursor<'_>,
    more: u32,
    wanted: Wanted,
) -> Result<Found, ParseFault>
    requires { more ≤ nesting_limit }
    ensures reads { Reads (read more wanted input.old.state) input.old.end result input.new }
    ensures keeps { OnOk result (Keeps input.old.state input.new.state) }
    ensures ends { input.new.end ≡ input.old.end }
{
    if more == 0 {
        return nowhere(input, wanted);
    }
    let grammar = Grammar {
        alloc,
        more: more - 1,
        inside,
    };
    grammar.read(input, wanted)
}
