//! The recursion on the brackets that may still be opened.
//! It makes the grammar of the brackets that are left and hands itself to it.

ghost use Rattle.std.specs.Prelude.{◌≡◌};
ghost use Rattle.c_grammar.specs.Read.Depth as depth;
ghost use Rattle.c_expr_parser.specs.Wanted.{read};
ghost use Rattle.c_expr_parser.specs.Reads.{Reads, Keeps};
ghost use Rattle.c_expr_parser.specs.Nests.{Nests};

use crate::cursor::Cursor;
use crate::fault::Stop;
use crate::grammar::Grammar;
use crate::wanted::{Found, Wanted};
use std::alloc::Global;

impl<F: Fn(Global, &mut Cursor<'_>, usize, Wanted) -> Result<Found, Stop>> Grammar<F> {
    /// What is wanted.
    fn read(&self, input: &mut Cursor<'_>, wanted: Wanted) -> Result<Found, Stop>
        requires { Nests self.now.more (F.pre self.now.inside) (F.post self.now.inside) }
        ensures reads { Reads (read (depth.around self.now.more (depth.inside self.now.more)) wanted input.old) result input.new }
        ensures keeps { Keeps input.old input.new }
    {
        match wanted {
            Wanted::Expression(within) => Ok(Found::Expression(self.expression(input, within)?)),
            Wanted::Specifiers(with_storage) => {
                Ok(Found::Specifiers(self.specifiers(input, with_storage)?))
            }
            Wanted::Declarator(purpose, typed) => {
                Ok(Found::Declarator(self.declarator(input, purpose, typed)?))
            }
        }
    }
}

/// What is wanted, inside a bracket; so many could be opened with that one.
pub fn inside(
    alloc: Global,
    input: &mut Cursor<'_>,
    more: usize,
    wanted: Wanted,
) -> Result<Found, Stop>
    ensures reads { Reads (read (depth.inside more) wanted input.old) result input.new }
    ensures keeps { Keeps input.old input.new }
{
    if more == 0 {
        return Err(Stop::Nest);
    }
    let grammar = Grammar {
        alloc,
        more: more - 1,
        inside,
    };
    grammar.read(input, wanted)
}
