//! Expressions, specifiers and declarators, which lead to each other.

ghost use Rattle.std.specs.Prelude.{◌≡◌, ◌++◌, OnOk, map};
ghost use Rattle.c_tree.specs.Spelling.Tokens.{told, joined};
ghost use Rattle.c_tree.specs.Spelling.Trees as spec;

use crate::declarator::{Declarator, DeclaratorSuffix, Direct, Parameter};
use crate::expression::{Branch, Expr, Next, Prefix, Suffix, TypeName};
use crate::specifier::{Enumerator, Member, MemberDeclarator, Specifier};
use crate::spelling::taker::Taker;
use crate::spelling::token::{
    comma_at, identifier, keyword, literals, name_at, pointers, punct, storage_word, type_word,
};
use crate::token::{Keyword, Punct, TokenKind};
use word_ops::Memory;

#[cycle(spelling)]
pub(super) fn expr<S: Taker>(out: &mut S, tree: &Expr) -> Result<(), Memory>
    ensures { OnOk result (S.taken out.new ≡ S.taken out.old ++ told S.shown (spec.expr_spelling tree.now)) }
{
    match tree {
        Expr::Name(id) => {
            identifier(out, id)?;
            Ok(())
        }
        Expr::Number(value, kind, _) => {
            out.take(TokenKind::Number {
                value: *value,
                kind: *kind,
            })?;
            Ok(())
        }
        Expr::Char(value, _) => {
            out.take(TokenKind::Char(*value))?;
            Ok(())
        }
        Expr::Strings(all) => {
            literals(out, all.as_slice())?;
            Ok(())
        }
        Expr::Paren(_, inner, _) => {
            punct(out, Punct::LeftParen)?;
            expr(out, inner.get())?;
            punct(out, Punct::RightParen)?;
            Ok(())
        }
        Expr::Postfix(operand, all) => {
            expr(out, operand.get())?;
            suffixes(out, all.as_slice())?;
            Ok(())
        }
        Expr::SizeofType(_, _, name, _) => {
            keyword(out, Keyword::Sizeof)?;
            punct(out, Punct::LeftParen)?;
            type_name(out, name.get())?;
            punct(out, Punct::RightParen)?;
            Ok(())
        }
        Expr::Prefixed(run, operand) => {
            prefixes(out, run.as_slice())?;
            expr(out, operand.get())?;
            Ok(())
        }
        Expr::Binary(_, first, rest) => {
            expr(out, first.get())?;
            nexts(out, rest.as_slice())?;
            Ok(())
        }
        Expr::Conditional(first, rest) => {
            expr(out, first.get())?;
            branches(out, rest.as_slice())?;
            Ok(())
        }
        Expr::Assign(first, rest) => {
            expr(out, first.get())?;
            nexts(out, rest.as_slice())?;
            Ok(())
        }
        Expr::Comma(first, rest) => {
            expr(out, first.get())?;
            nexts(out, rest.as_slice())?;
            Ok(())
        }
    }
}

#[cycle(spelling)]
fn suffixes<S: Taker>(out: &mut S, all: &[Suffix]) -> Result<(), Memory>
    ensures { OnOk result (S.taken out.new ≡ S.taken out.old ++ told S.shown (joined (map spec.suffix_spelling all.now))) }
{
    for one in all {
        suffix(out, one)?;
    }
    Ok(())
}

#[cycle(spelling)]
fn suffix<S: Taker>(out: &mut S, tree: &Suffix) -> Result<(), Memory>
    ensures { OnOk result (S.taken out.new ≡ S.taken out.old ++ told S.shown (spec.suffix_spelling tree.now)) }
{
    match tree {
        Suffix::Index(_, inner, _) => {
            punct(out, Punct::LeftBracket)?;
            expr(out, inner)?;
            punct(out, Punct::RightBracket)?;
            Ok(())
        }
        Suffix::Call(_, _) => {
            punct(out, Punct::LeftParen)?;
            punct(out, Punct::RightParen)?;
            Ok(())
        }
        Suffix::CallWith(_, first, rest, _) => {
            punct(out, Punct::LeftParen)?;
            expr(out, first)?;
            nexts(out, rest.as_slice())?;
            punct(out, Punct::RightParen)?;
            Ok(())
        }
        Suffix::Member(_, id) => {
            punct(out, Punct::Dot)?;
            identifier(out, id)?;
            Ok(())
        }
        Suffix::Arrow(_, id) => {
            punct(out, Punct::Arrow)?;
            identifier(out, id)?;
            Ok(())
        }
        Suffix::Increment(_) => {
            punct(out, Punct::Increment)?;
            Ok(())
        }
        Suffix::Decrement(_) => {
            punct(out, Punct::Decrement)?;
            Ok(())
        }
    }
}

#[cycle(spelling)]
fn prefixes<S: Taker>(out: &mut S, all: &[Prefix]) -> Result<(), Memory>
    ensures { OnOk result (S.taken out.new ≡ S.taken out.old ++ told S.shown (joined (map spec.prefix_spelling all.now))) }
{
    for one in all {
        prefix(out, one)?;
    }
    Ok(())
}

#[cycle(spelling)]
fn prefix<S: Taker>(out: &mut S, tree: &Prefix) -> Result<(), Memory>
    ensures { OnOk result (S.taken out.new ≡ S.taken out.old ++ told S.shown (spec.prefix_spelling tree.now)) }
{
    match tree {
        Prefix::Operator(mark) => {
            punct(out, mark.punct)?;
            Ok(())
        }
        Prefix::Sizeof(_) => {
            keyword(out, Keyword::Sizeof)?;
            Ok(())
        }
        Prefix::Cast(_, name, _) => {
            punct(out, Punct::LeftParen)?;
            type_name(out, name)?;
            punct(out, Punct::RightParen)?;
            Ok(())
        }
    }
}

#[cycle(spelling)]
fn nexts<S: Taker>(out: &mut S, all: &[Next]) -> Result<(), Memory>
    ensures { OnOk result (S.taken out.new ≡ S.taken out.old ++ told S.shown (joined (map spec.next_spelling all.now))) }
{
    for one in all {
        punct(out, one.operator.punct)?;
        expr(out, &one.operand)?;
    }
    Ok(())
}

#[cycle(spelling)]
fn branches<S: Taker>(out: &mut S, all: &[Branch]) -> Result<(), Memory>
    ensures { OnOk result (S.taken out.new ≡ S.taken out.old ++ told S.shown (joined (map spec.branch_spelling all.now))) }
{
    for one in all {
        punct(out, Punct::Question)?;
        expr(out, &one.gives)?;
        punct(out, Punct::Colon)?;
        expr(out, &one.operand)?;
    }
    Ok(())
}

#[cycle(spelling)]
fn type_name<S: Taker>(out: &mut S, tree: &TypeName) -> Result<(), Memory>
    ensures { OnOk result (S.taken out.new ≡ S.taken out.old ++ told S.shown (spec.type_name_spelling tree.now)) }
{
    specifiers(out, tree.specifiers.as_slice())?;
    declarator(out, &tree.declarator)?;
    Ok(())
}

#[cycle(spelling)]
pub(super) fn specifiers<S: Taker>(out: &mut S, all: &[Specifier]) -> Result<(), Memory>
    ensures { OnOk result (S.taken out.new ≡ S.taken out.old ++ told S.shown (joined (map spec.specifier_spelling all.now))) }
{
    for one in all {
        specifier(out, one)?;
    }
    Ok(())
}

#[cycle(spelling)]
fn specifier<S: Taker>(out: &mut S, tree: &Specifier) -> Result<(), Memory>
    ensures { OnOk result (S.taken out.new ≡ S.taken out.old ++ told S.shown (spec.specifier_spelling tree.now)) }
{
    match tree {
        Specifier::Storage(storage, _) => {
            keyword(out, storage_word(*storage))?;
            Ok(())
        }
        Specifier::Const(_) => {
            keyword(out, Keyword::Const)?;
            Ok(())
        }
        Specifier::Word(word, _) => {
            keyword(out, type_word(*word))?;
            Ok(())
        }
        Specifier::StructTag(_, tag) => {
            keyword(out, Keyword::Struct)?;
            identifier(out, tag)?;
            Ok(())
        }
        Specifier::Struct {
            tag,
            members: all,
            ..
        } => {
            keyword(out, Keyword::Struct)?;
            name_at(out, tag)?;
            punct(out, Punct::LeftBrace)?;
            members(out, all.as_slice())?;
            punct(out, Punct::RightBrace)?;
            Ok(())
        }
        Specifier::EnumTag(_, tag) => {
            keyword(out, Keyword::Enum)?;
            identifier(out, tag)?;
            Ok(())
        }
        Specifier::Enum {
            tag,
            enumerators: all,
            comma,
            ..
        } => {
            keyword(out, Keyword::Enum)?;
            name_at(out, tag)?;
            punct(out, Punct::LeftBrace)?;
            enumerators(out, all.as_slice())?;
            comma_at(out, comma)?;
            punct(out, Punct::RightBrace)?;
            Ok(())
        }
        Specifier::TypedefName(id) => {
            identifier(out, id)?;
            Ok(())
        }
    }
}

#[cycle(spelling)]
fn members<S: Taker>(out: &mut S, all: &[Member]) -> Result<(), Memory>
    ensures { OnOk result (S.taken out.new ≡ S.taken out.old ++ told S.shown (joined (map spec.member_spelling all.now))) }
{
    for one in all {
        specifiers(out, one.specifiers.as_slice())?;
        member_declarators(out, one.declarators.as_slice())?;
        punct(out, Punct::Semicolon)?;
    }
    Ok(())
}

#[cycle(spelling)]
fn member_declarators<S: Taker>(out: &mut S, all: &[MemberDeclarator]) -> Result<(), Memory>
    ensures { OnOk result (S.taken out.new ≡ S.taken out.old ++ told S.shown (joined (map spec.member_declarator_spelling all.now))) }
{
    for one in all {
        comma_at(out, &one.comma)?;
        declarator(out, &one.declarator)?;
    }
    Ok(())
}

#[cycle(spelling)]
fn enumerators<S: Taker>(out: &mut S, all: &[Enumerator]) -> Result<(), Memory>
    ensures { OnOk result (S.taken out.new ≡ S.taken out.old ++ told S.shown (joined (map spec.enumerator_spelling all.now))) }
{
    for one in all {
        enumerator(out, one)?;
    }
    Ok(())
}

#[cycle(spelling)]
fn enumerator<S: Taker>(out: &mut S, tree: &Enumerator) -> Result<(), Memory>
    ensures { OnOk result (S.taken out.new ≡ S.taken out.old ++ told S.shown (spec.enumerator_spelling tree.now)) }
{
    match tree {
        Enumerator::Plain(comma, id) => {
            comma_at(out, comma)?;
            identifier(out, id)?;
            Ok(())
        }
        Enumerator::Valued(comma, id, _, value) => {
            comma_at(out, comma)?;
            identifier(out, id)?;
            punct(out, Punct::Assign)?;
            expr(out, value)?;
            Ok(())
        }
    }
}

#[cycle(spelling)]
pub(super) fn declarator<S: Taker>(out: &mut S, tree: &Declarator) -> Result<(), Memory>
    ensures { OnOk result (S.taken out.new ≡ S.taken out.old ++ told S.shown (spec.declarator_spelling tree.now)) }
{
    pointers(out, tree.pointers.as_slice())?;
    direct(out, &tree.direct)?;
    declarator_suffixes(out, tree.suffixes.as_slice())?;
    Ok(())
}

#[cycle(spelling)]
fn direct<S: Taker>(out: &mut S, tree: &Direct) -> Result<(), Memory>
    ensures { OnOk result (S.taken out.new ≡ S.taken out.old ++ told S.shown (spec.direct_spelling tree.now)) }
{
    match tree {
        Direct::Nothing => Ok(()),
        Direct::Named(id) => {
            identifier(out, id)?;
            Ok(())
        }
        Direct::Grouped(_, inner, _) => {
            punct(out, Punct::LeftParen)?;
            declarator(out, inner.get())?;
            punct(out, Punct::RightParen)?;
            Ok(())
        }
    }
}

#[cycle(spelling)]
fn declarator_suffixes<S: Taker>(out: &mut S, all: &[DeclaratorSuffix]) -> Result<(), Memory>
    ensures { OnOk result (S.taken out.new ≡ S.taken out.old ++ told S.shown (joined (map spec.declarator_suffix_spelling all.now))) }
{
    for one in all {
        declarator_suffix(out, one)?;
    }
    Ok(())
}

#[cycle(spelling)]
fn declarator_suffix<S: Taker>(out: &mut S, tree: &DeclaratorSuffix) -> Result<(), Memory>
    ensures { OnOk result (S.taken out.new ≡ S.taken out.old ++ told S.shown (spec.declarator_suffix_spelling tree.now)) }
{
    match tree {
        DeclaratorSuffix::Array(_, _) => {
            punct(out, Punct::LeftBracket)?;
            punct(out, Punct::RightBracket)?;
            Ok(())
        }
        DeclaratorSuffix::ArrayOf(_, size, _) => {
            punct(out, Punct::LeftBracket)?;
            expr(out, size)?;
            punct(out, Punct::RightBracket)?;
            Ok(())
        }
        DeclaratorSuffix::Empty(_, _) => {
            punct(out, Punct::LeftParen)?;
            punct(out, Punct::RightParen)?;
            Ok(())
        }
        DeclaratorSuffix::Void(_, _, _) => {
            punct(out, Punct::LeftParen)?;
            keyword(out, Keyword::Void)?;
            punct(out, Punct::RightParen)?;
            Ok(())
        }
        DeclaratorSuffix::Parameters(_, all, _) => {
            punct(out, Punct::LeftParen)?;
            parameters(out, all.as_slice())?;
            punct(out, Punct::RightParen)?;
            Ok(())
        }
    }
}

#[cycle(spelling)]
fn parameters<S: Taker>(out: &mut S, all: &[Parameter]) -> Result<(), Memory>
    ensures { OnOk result (S.taken out.new ≡ S.taken out.old ++ told S.shown (joined (map spec.parameter_spelling all.now))) }
{
    for one in all {
        comma_at(out, &one.comma)?;
        specifiers(out, one.specifiers.as_slice())?;
        declarator(out, &one.declarator)?;
    }
    Ok(())
}
