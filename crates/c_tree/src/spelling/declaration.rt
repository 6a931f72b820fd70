//! Initialisers and declarations.

ghost use Rattle.std.specs.Prelude.{◌≡◌, ◌++◌, OnOk, map};
ghost use Rattle.c_tree.specs.Spelling.Tokens.{told, joined};
ghost use Rattle.c_tree.specs.Spelling.Initialisers.{initialiser_spelling, initialiser_item_spelling};
ghost use Rattle.c_tree.specs.Spelling.Declarations as spec;

use crate::declaration::{Declaration, InitDeclarator, Initialiser, InitialiserItem, Start};
use crate::spelling::taker::Taker;
use crate::spelling::token::{comma_at, punct};
use crate::spelling::tree::{declarator, expr, specifiers};
use crate::token::{Punct, TokenKind};
use word_ops::Memory;

#[cycle(spelling)]
fn initialiser<S: Taker>(out: &mut S, tree: &Initialiser) -> Result<(), Memory>
    ensures { OnOk result (S.taken out.new ≡ S.taken out.old ++ told S.shown (initialiser_spelling tree.now)) }
{
    match tree {
        Initialiser::Expression(value) => {
            expr(out, value)?;
            Ok(())
        }
        Initialiser::List {
            items: all,
            comma,
            ..
        } => {
            punct(out, Punct::LeftBrace)?;
            initialiser_items(out, all.as_slice())?;
            comma_at(out, comma)?;
            punct(out, Punct::RightBrace)?;
            Ok(())
        }
    }
}

#[cycle(spelling)]
fn initialiser_items<S: Taker>(out: &mut S, all: &[InitialiserItem]) -> Result<(), Memory>
    ensures { OnOk result (S.taken out.new ≡ S.taken out.old ++ told S.shown (joined (map initialiser_item_spelling all.now))) }
{
    for one in all {
        comma_at(out, &one.comma)?;
        initialiser(out, &one.value)?;
    }
    Ok(())
}

fn start<S: Taker>(out: &mut S, tree: &Option<Start>) -> Result<(), Memory>
    ensures { OnOk result (S.taken out.new ≡ S.taken out.old ++ told S.shown (spec.start_spelling tree.now)) }
{
    match tree {
        Some(begun) => {
            punct(out, Punct::Assign)?;
            initialiser(out, &begun.value)?;
            Ok(())
        }
        None => Ok(()),
    }
}

fn init_declarators<S: Taker>(out: &mut S, all: &[InitDeclarator]) -> Result<(), Memory>
    ensures { OnOk result (S.taken out.new ≡ S.taken out.old ++ told S.shown (joined (map spec.init_declarator_spelling all.now))) }
{
    for one in all {
        comma_at(out, &one.comma)?;
        declarator(out, &one.declarator)?;
        start(out, &one.start)?;
    }
    Ok(())
}

pub(super) fn declaration<S: Taker>(out: &mut S, tree: &Declaration) -> Result<(), Memory>
    ensures { OnOk result (S.taken out.new ≡ S.taken out.old ++ told S.shown (spec.declaration_spelling tree.now)) }
{
    specifiers(out, tree.specifiers.as_slice())?;
    init_declarators(out, tree.declarators.as_slice())?;
    punct(out, Punct::Semicolon)?;
    Ok(())
}
