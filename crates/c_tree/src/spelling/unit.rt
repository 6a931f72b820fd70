//! Function definitions and units.

ghost use Rattle.std.specs.Prelude.{◌≡◌, ◌++◌, OnOk, IfOk, length, map};
ghost use Rattle.c_tree.specs.Spelling.Tokens.{kinds, told, joined};
ghost use Rattle.c_tree.specs.Spelling.Units as spec;

use crate::spelling::declaration::declaration;
use crate::spelling::statement::block;
use crate::spelling::taker::{Count, Kinds, Taker};
use crate::spelling::tree::{declarator, specifiers};
use crate::token::TokenKind;
use crate::unit::{Definition, External, Unit};
use std::alloc::Global;
use word_ops::Memory;

fn definition<S: Taker>(out: &mut S, tree: &Definition) -> Result<(), Memory>
    ensures { OnOk result (S.taken out.new ≡ S.taken out.old ++ told S.shown (spec.definition_spelling tree.now)) }
{
    specifiers(out, tree.specifiers.as_slice())?;
    declarator(out, &tree.declarator)?;
    block(out, &tree.body)?;
    Ok(())
}

fn external<S: Taker>(out: &mut S, tree: &External) -> Result<(), Memory>
    ensures { OnOk result (S.taken out.new ≡ S.taken out.old ++ told S.shown (spec.external_spelling tree.now)) }
{
    match tree {
        External::Declaration(declared) => {
            declaration(out, declared)?;
            Ok(())
        }
        External::Definition(defined) => {
            definition(out, defined)?;
            Ok(())
        }
    }
}

fn externals<S: Taker>(out: &mut S, all: &[External]) -> Result<(), Memory>
    ensures { OnOk result (S.taken out.new ≡ S.taken out.old ++ told S.shown (joined (map spec.external_spelling all.now))) }
{
    for one in all {
        external(out, one)?;
    }
    Ok(())
}

/// How many tokens a function definition has (C11 6.9.1), from its first specifier to its closing brace. Takes no memory.
///
/// # Errors
///
/// `Memory` where there are more than 2^64 - 1, which no tree in memory has.
#[tactic(auto, using(crate::proofs::Appends::length_counted))]
pub fn definition_tokens(tree: &Definition) -> Result<u64, Memory>
    ensures { IfOk result (λ n. n ≡ length (spec.definition_spelling tree.now)) }
{
    let mut count = Count::new();
    definition(&mut count, tree)?;
    Ok(count.tokens())
}

/// The kinds of the tokens of a unit, in order (C11 6.9).
///
/// They are those of the unit's spelling, which has the place of each token too. Parentheses are nodes
/// of the trees, so none is added and none is lost. Any unit has a spelling, also one that is not
/// levelled.
///
/// # Errors
///
/// `Memory` where memory for the list is wanting, and for no other cause.
#[tactic(auto, using(crate::proofs::Appends::told_kinds))]
pub fn spell(alloc: Global, unit: &Unit) -> Result<Vec<TokenKind>, Memory>
    ensures { IfOk result (λ list. list.items ≡ kinds (spec.unit_spelling unit.now)) }
{
    let mut out = Kinds::new(alloc);
    externals(&mut out, unit.items.as_slice())?;
    Ok(out.into_list())
}
