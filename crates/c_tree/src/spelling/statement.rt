//! Statements and blocks.

ghost use Rattle.std.specs.Prelude.{◌≡◌, ◌++◌, OnOk, map};
ghost use Rattle.c_tree.specs.Spelling.Tokens.{told, joined};
ghost use Rattle.c_tree.specs.Spelling.OfStatements as part;
ghost use Rattle.c_tree.specs.Spelling.Statements as spec;

use crate::expression::Expr;
use crate::spelling::declaration::declaration;
use crate::spelling::taker::Taker;
use crate::spelling::token::{keyword, punct};
use crate::spelling::tree::expr;
use crate::statement::{Block, BlockItem, Condition, Else, ForControl, ForHead, IfHead, Stmt};
use crate::token::{Keyword, Punct, TokenKind};
use word_ops::Memory;

fn value_at<S: Taker>(out: &mut S, value: &Option<Expr>) -> Result<(), Memory>
    ensures { OnOk result (S.taken out.new ≡ S.taken out.old ++ told S.shown (part.value_spelling value.now)) }
{
    match value {
        Some(tree) => {
            expr(out, tree)?;
            Ok(())
        }
        None => Ok(()),
    }
}

fn condition<S: Taker>(out: &mut S, tree: &Condition) -> Result<(), Memory>
    ensures { OnOk result (S.taken out.new ≡ S.taken out.old ++ told S.shown (part.condition_spelling tree.now)) }
{
    punct(out, Punct::LeftParen)?;
    expr(out, &tree.value)?;
    punct(out, Punct::RightParen)?;
    Ok(())
}

fn if_head<S: Taker>(out: &mut S, head: &Option<IfHead>) -> Result<(), Memory>
    ensures { OnOk result (S.taken out.new ≡ S.taken out.old ++ told S.shown (part.if_head_spelling head.now)) }
{
    match head {
        Some(tree) => {
            keyword(out, Keyword::If)?;
            condition(out, &tree.condition)?;
            Ok(())
        }
        None => Ok(()),
    }
}

fn for_head<S: Taker>(out: &mut S, tree: &ForHead) -> Result<(), Memory>
    ensures { OnOk result (S.taken out.new ≡ S.taken out.old ++ told S.shown (part.for_head_spelling tree.now)) }
{
    match tree {
        ForHead::Expression(value, _) => {
            value_at(out, value)?;
            punct(out, Punct::Semicolon)?;
            Ok(())
        }
        ForHead::Declaration(declared) => {
            declaration(out, declared)?;
            Ok(())
        }
    }
}

fn for_control<S: Taker>(out: &mut S, tree: &ForControl) -> Result<(), Memory>
    ensures { OnOk result (S.taken out.new ≡ S.taken out.old ++ told S.shown (part.for_control_spelling tree.now)) }
{
    punct(out, Punct::LeftParen)?;
    for_head(out, &tree.head)?;
    value_at(out, &tree.condition)?;
    punct(out, Punct::Semicolon)?;
    value_at(out, &tree.step)?;
    punct(out, Punct::RightParen)?;
    Ok(())
}

#[cycle(spelling)]
fn stmt<S: Taker>(out: &mut S, tree: &Stmt) -> Result<(), Memory>
    ensures { OnOk result (S.taken out.new ≡ S.taken out.old ++ told S.shown (spec.stmt_spelling tree.now)) }
{
    match tree {
        Stmt::Block(body) => {
            block(out, body)?;
            Ok(())
        }
        Stmt::Expression(value, _) => {
            value_at(out, value)?;
            punct(out, Punct::Semicolon)?;
            Ok(())
        }
        Stmt::If {
            condition: test,
            body,
            others,
            ..
        } => {
            keyword(out, Keyword::If)?;
            condition(out, test)?;
            stmt(out, body.get())?;
            elses(out, others.as_slice())?;
            Ok(())
        }
        Stmt::While(_, test, body) => {
            keyword(out, Keyword::While)?;
            condition(out, test)?;
            stmt(out, body.get())?;
            Ok(())
        }
        Stmt::Do {
            body,
            condition: test,
            ..
        } => {
            keyword(out, Keyword::Do)?;
            stmt(out, body.get())?;
            keyword(out, Keyword::While)?;
            condition(out, test)?;
            punct(out, Punct::Semicolon)?;
            Ok(())
        }
        Stmt::For(_, control, body) => {
            keyword(out, Keyword::For)?;
            for_control(out, control)?;
            stmt(out, body.get())?;
            Ok(())
        }
        Stmt::Switch(_, test, body) => {
            keyword(out, Keyword::Switch)?;
            condition(out, test)?;
            block(out, body)?;
            Ok(())
        }
        Stmt::Break(_, _) => {
            keyword(out, Keyword::Break)?;
            punct(out, Punct::Semicolon)?;
            Ok(())
        }
        Stmt::Continue(_, _) => {
            keyword(out, Keyword::Continue)?;
            punct(out, Punct::Semicolon)?;
            Ok(())
        }
        Stmt::Return(_, value, _) => {
            keyword(out, Keyword::Return)?;
            value_at(out, value)?;
            punct(out, Punct::Semicolon)?;
            Ok(())
        }
    }
}

#[cycle(spelling)]
fn elses<S: Taker>(out: &mut S, all: &[Else]) -> Result<(), Memory>
    ensures { OnOk result (S.taken out.new ≡ S.taken out.old ++ told S.shown (joined (map spec.else_spelling all.now))) }
{
    for one in all {
        keyword(out, Keyword::Else)?;
        if_head(out, &one.head)?;
        stmt(out, &one.body)?;
    }
    Ok(())
}

#[cycle(spelling)]
pub(super) fn block<S: Taker>(out: &mut S, tree: &Block) -> Result<(), Memory>
    ensures { OnOk result (S.taken out.new ≡ S.taken out.old ++ told S.shown (spec.block_spelling tree.now)) }
{
    punct(out, Punct::LeftBrace)?;
    block_items(out, tree.items.as_slice())?;
    punct(out, Punct::RightBrace)?;
    Ok(())
}

#[cycle(spelling)]
fn block_items<S: Taker>(out: &mut S, all: &[BlockItem]) -> Result<(), Memory>
    ensures { OnOk result (S.taken out.new ≡ S.taken out.old ++ told S.shown (joined (map spec.block_item_spelling all.now))) }
{
    for one in all {
        block_item(out, one)?;
    }
    Ok(())
}

#[cycle(spelling)]
fn block_item<S: Taker>(out: &mut S, tree: &BlockItem) -> Result<(), Memory>
    ensures { OnOk result (S.taken out.new ≡ S.taken out.old ++ told S.shown (spec.block_item_spelling tree.now)) }
{
    match tree {
        BlockItem::Declaration(declared) => {
            declaration(out, declared)?;
            Ok(())
        }
        BlockItem::Statement(statement) => {
            stmt(out, statement)?;
            Ok(())
        }
        BlockItem::Case(_, value, _) => {
            keyword(out, Keyword::Case)?;
            expr(out, value)?;
            punct(out, Punct::Colon)?;
            Ok(())
        }
        BlockItem::Default(_, _) => {
            keyword(out, Keyword::Default)?;
            punct(out, Punct::Colon)?;
            Ok(())
        }
    }
}
