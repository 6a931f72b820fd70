//! The public calls.
//! Each makes a cursor at its place of the tokens, reads what is wanted, and gives the names back.

ghost use Rattle.std.specs.Prelude.{◌≡◌, suc, ◌-◌};
ghost use Rattle.c_tree.specs.Levelled.{nesting_limit};
ghost use Rattle.c_tree.specs.Levels.Productions as production;
ghost use Rattle.c_grammar.specs.Read.Depth as grammar;
ghost use Rattle.c_grammar.specs.Productions as trees;
ghost use Rattle.c_expr_parser.specs.Numbers.{within_number, use_of};
ghost use Rattle.c_expr_parser.specs.Wanted as inner;
ghost use Rattle.c_expr_parser.specs.Calls as call;

use crate::cursor::Cursor;
use crate::fault::{ParseFault, Stop};
use crate::inside::inside;
use crate::wanted::{Found, Use, Wanted, Within};
use c_tree::{Declarator, Expr, Pos, Specifiers, Tokens};
use scope_map::ScopeMap;
use std::alloc::Global;
use std::mem;
use word_ops::Text;

/// The names that are visible, each with whether it is a typedef name.
pub type Names = ScopeMap<Text, bool>;

/// How deep tokens may nest.
pub const DEEPEST: u32 = 256;

// Why a call stopped at this place, or at the end where there is none.
fn fault_at(stop: Stop, place: Option<Pos>, end: Pos) -> ParseFault
    ensures { result ≡ call.fault_of stop (call.place_or place end) }
{
    let place = match place {
        Some(place) => place,
        None => end,
    };
    match stop {
        Stop::Syntax => ParseFault::Syntax(place),
        Stop::Nest => ParseFault::Nest(place),
        Stop::Memory => ParseFault::Memory,
    }
}

// Reads what is wanted from place `at` on.
fn read(
    alloc: Global,
    tokens: &Tokens,
    at: usize,
    names: &mut Names,
    depth: u32,
    wanted: Wanted,
) -> Result<(Found, usize), ParseFault>
    requires { call.Stands tokens.now.list at depth }
    ensures { call.Gives (inner.read (grammar.inside (suc (nesting_limit - depth))) wanted) names.old names.new tokens.now.list at tokens.now.end result }
{
    let visible = mem::replace(names, ScopeMap::new(alloc));
    let mut input = Cursor::new(visible, &tokens.list.as_slice()[at..]);
    let more = (DEEPEST - depth) as usize + 1;
    let found = inside(alloc, &mut input, more, wanted);
    let left = input.left();
    let place = input.place();
    *names = input.into_names();
    match found {
        Ok(found) => Ok((found, tokens.list.len() - left)),
        Err(stop) => Err(fault_at(stop, place, tokens.end)),
    }
}

fn read_expression(
    alloc: Global,
    tokens: &Tokens,
    at: usize,
    names: &mut Names,
    depth: u32,
    within: Within,
) -> Result<(Expr, usize), ParseFault>
    requires { call.Stands tokens.now.list at depth }
    ensures { call.Gives (grammar.expression (nesting_limit - depth) (within_number within)) names.old names.new tokens.now.list at tokens.now.end result }
{
    let (found, behind) = read(alloc, tokens, at, names, depth, Wanted::Expression(within))?;
    match found {
        Found::Expression(tree) => Ok((tree, behind)),
        Found::Specifiers(_) | Found::Declarator(_) => unreachable!(),
    }
}

fn read_specifiers(
    alloc: Global,
    tokens: &Tokens,
    at: usize,
    names: &mut Names,
    depth: u32,
    with_storage: bool,
) -> Result<(Specifiers, usize), ParseFault>
    requires { call.Stands tokens.now.list at depth }
    ensures { call.Gives (grammar.specifiers (nesting_limit - depth) with_storage) names.old names.new tokens.now.list at tokens.now.end result }
{
    let (found, behind) = read(
        alloc,
        tokens,
        at,
        names,
        depth,
        Wanted::Specifiers(with_storage),
    )?;
    match found {
        Found::Specifiers(tree) => Ok((tree, behind)),
        Found::Expression(_) | Found::Declarator(_) => unreachable!(),
    }
}

fn read_declarator(
    alloc: Global,
    tokens: &Tokens,
    at: usize,
    names: &mut Names,
    depth: u32,
    purpose: Use,
    typed: bool,
) -> Result<(Declarator, usize), ParseFault>
    requires { call.Stands tokens.now.list at depth }
    ensures { call.Gives (grammar.declarator (nesting_limit - depth) (use_of purpose) typed) names.old names.new tokens.now.list at tokens.now.end result }
{
    let (found, behind) = read(
        alloc,
        tokens,
        at,
        names,
        depth,
        Wanted::Declarator(purpose, typed),
    )?;
    match found {
        Found::Declarator(tree) => Ok((tree, behind)),
        Found::Expression(_) | Found::Specifiers(_) => unreachable!(),
    }
}

/// Reads the longest expression at a place of the tokens (C11 6.5.17).
///
/// The longest front of the tokens from `at` that begins an expression, whatever its nesting, is taken. Gives its tree
/// and the place behind it, and puts the enumerators that the tree declares behind `names`. `depth` is the nesting at
/// `at`.
///
/// # Errors
///
/// `Syntax` and `Nest` where the grammar's function on lists stops for that reason, at the place of the first token that it
/// leaves, or at the end of the tokens; `Memory` where memory is wanting. `names` may have got further names then.
pub fn expression(
    alloc: Global,
    tokens: &Tokens,
    at: usize,
    names: &mut Names,
    depth: u32,
) -> Result<(Expr, usize), ParseFault>
    requires { call.Stands tokens.now.list at depth }
    ensures { call.Answers (trees.expressions production.comma) (grammar.expression (nesting_limit - depth) production.comma) names.old names.new tokens.now.list at depth tokens.now.end result }
{
    read_expression(alloc, tokens, at, names, depth, Within::Comma)
}

/// Reads the longest assignment expression at a place of the tokens (C11 6.5.16), as `expression` does.
pub fn assignment(
    alloc: Global,
    tokens: &Tokens,
    at: usize,
    names: &mut Names,
    depth: u32,
) -> Result<(Expr, usize), ParseFault>
    requires { call.Stands tokens.now.list at depth }
    ensures { call.Answers (trees.expressions production.assignment) (grammar.expression (nesting_limit - depth) production.assignment) names.old names.new tokens.now.list at depth tokens.now.end result }
{
    read_expression(alloc, tokens, at, names, depth, Within::Assignment)
}

/// Reads the longest conditional expression at a place of the tokens (C11 6.5.15), as `expression` does.
pub fn conditional(
    alloc: Global,
    tokens: &Tokens,
    at: usize,
    names: &mut Names,
    depth: u32,
) -> Result<(Expr, usize), ParseFault>
    requires { call.Stands tokens.now.list at depth }
    ensures { call.Answers (trees.expressions production.conditional) (grammar.expression (nesting_limit - depth) production.conditional) names.old names.new tokens.now.list at depth tokens.now.end result }
{
    read_expression(alloc, tokens, at, names, depth, Within::Conditional)
}

/// Reads the longest list of specifiers at a place of the tokens (C11 6.7), with storage words or without, as
/// `expression` does.
pub fn specifiers(
    alloc: Global,
    tokens: &Tokens,
    at: usize,
    names: &mut Names,
    depth: u32,
    with_storage: bool,
) -> Result<(Specifiers, usize), ParseFault>
    requires { call.Stands tokens.now.list at depth }
    ensures { call.Answers (trees.specifier_lists with_storage) (grammar.specifiers (nesting_limit - depth) with_storage) names.old names.new tokens.now.list at depth tokens.now.end result }
{
    read_specifiers(alloc, tokens, at, names, depth, with_storage)
}

/// Reads the longest declarator at a place of the tokens (C11 6.7.6, 6.7.7), as `expression` does.
///
/// `purpose` tells whether it has a name, and `typed` whether the specifiers before it name a type: only behind such
/// ones a typedef name is declared anew.
pub fn declarator(
    alloc: Global,
    tokens: &Tokens,
    at: usize,
    names: &mut Names,
    depth: u32,
    purpose: Use,
    typed: bool,
) -> Result<(Declarator, usize), ParseFault>
    requires { call.Stands tokens.now.list at depth }
    ensures { call.Answers (trees.declarators (use_of purpose) typed) (grammar.declarator (nesting_limit - depth) (use_of purpose) typed) names.old names.new tokens.now.list at depth tokens.now.end result }
{
    read_declarator(alloc, tokens, at, names, depth, purpose, typed)
}
