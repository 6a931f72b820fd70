//! The public call.
//! It reads declarations and definitions to the end of the tokens.

ghost use Rattle.c_unit_parser.specs.Units as call;

use crate::cursor::Cursor;
use crate::grammar::Grammar;
use crate::inside::inside;
use c_expr_parser::{DEEPEST, ParseFault};
use c_tree::{Tokens, Unit};
use std::alloc::Global;

/// Reads all the tokens of a source as a translation unit (C11 6.9).
///
/// Ok comes exactly where the tokens are those of a unit that the grammar has and that nests at most 256 deep, unless
/// memory is wanting, and gives that unit, the only one of these tokens.
///
/// # Errors
///
/// `Syntax` at the token, or the end, where the grammar does not go on; `Nest` at the token that would be nested more than
/// 256 deep; `Memory` where memory is wanting.
pub fn parse(alloc: Global, tokens: &Tokens) -> Result<Unit, ParseFault>
    ensures levelled { call.Levelled result }
    ensures spelt { call.Spelt tokens.now.list tokens.now.end result }
    ensures only { call.Only tokens.now.list tokens.now.end result }
    ensures comes { call.Comes tokens.now.list tokens.now.end result }
    ensures refused { call.Refused tokens.now.list tokens.now.end result }
{
    let mut input = Cursor::new(alloc, tokens);
    let grammar = Grammar {
        alloc,
        more: DEEPEST,
        inside,
    };
    let items = grammar.externals(&mut input)?;
    Ok(Unit {
        items,
        end: tokens.end,
    })
}
