//! The names that trees declare for what stands behind them (C11 6.2.1p4, p7): enumerators, and the parameters of a list.
//!
//! A parameter list ends the scope of what is declared in it. The list beside the name of a definition belongs to the
//! block of that, so the parser makes the names of it visible once more.

ghost use Rattle.std.specs.Prelude.{◌≡◌, [], ◌∷◌, ◌++◌, map, OnOk};
ghost use Rattle.c_tree.specs.Levels.Names.{in_row};
ghost use Rattle.c_tree.specs.Levels.Trees as level;
ghost use Rattle.c_unit_parser.specs.Declares.{Puts};

use c_expr_parser::{Names, copied, declared_name, have_typedef};
use c_tree::{
    Branch, Declarator, DeclaratorSuffix, Direct, Enumerator, Expr, Member, MemberDeclarator, Next,
    Parameter, Prefix, Specifier, Suffix, TypeName,
};
use std::alloc::Global;
use word_ops::{Memory, Text};

/// Puts a name behind the others.
pub fn declare(
    alloc: Global,
    names: &mut Names,
    name: &Text,
    is_typedef: bool,
) -> Result<(), Memory>
    ensures { OnOk result (names.new ≡ names.old ++ (name.now, is_typedef) ∷ []) }
{
    names.insert(copied(alloc, name)?, is_typedef)?;
    Ok(())
}

#[cycle(declares)]
fn expr(alloc: Global, names: &mut Names, tree: &Expr) -> Result<(), Memory>
    ensures { OnOk result (Puts (level.expr_level tree.now) names.old names.new) }
{
    match tree {
        Expr::Name(_) | Expr::Number(_, _, _) | Expr::Char(_, _) | Expr::Strings(_) => Ok(()),
        Expr::Paren(_, inner, _) => expr(alloc, names, inner.get()),
        Expr::Postfix(operand, all) => {
            expr(alloc, names, operand.get())?;
            suffixes(alloc, names, all.as_slice())
        }
        Expr::SizeofType(_, _, name, _) => type_name(alloc, names, name.get()),
        Expr::Prefixed(run, operand) => {
            prefixes(alloc, names, run.as_slice())?;
            expr(alloc, names, operand.get())
        }
        Expr::Binary(_, first, rest) | Expr::Assign(first, rest) | Expr::Comma(first, rest) => {
            expr(alloc, names, first.get())?;
            nexts(alloc, names, rest.as_slice())
        }
        Expr::Conditional(first, rest) => {
            expr(alloc, names, first.get())?;
            branches(alloc, names, rest.as_slice())
        }
    }
}

#[cycle(declares)]
fn suffixes(alloc: Global, names: &mut Names, all: &[Suffix]) -> Result<(), Memory>
    ensures { OnOk result (Puts (in_row (map level.suffix_level all.now)) names.old names.new) }
{
    for one in all {
        suffix(alloc, names, one)?;
    }
    Ok(())
}

#[cycle(declares)]
fn suffix(alloc: Global, names: &mut Names, tree: &Suffix) -> Result<(), Memory>
    ensures { OnOk result (Puts (level.suffix_level tree.now) names.old names.new) }
{
    match tree {
        Suffix::Index(_, inner, _) => expr(alloc, names, inner),
        Suffix::CallWith(_, first, rest, _) => {
            expr(alloc, names, first)?;
            nexts(alloc, names, rest.as_slice())
        }
        Suffix::Call(_, _)
        | Suffix::Member(_, _)
        | Suffix::Arrow(_, _)
        | Suffix::Increment(_)
        | Suffix::Decrement(_) => Ok(()),
    }
}

#[cycle(declares)]
fn prefixes(alloc: Global, names: &mut Names, all: &[Prefix]) -> Result<(), Memory>
    ensures { OnOk result (Puts (in_row (map level.prefix_level all.now)) names.old names.new) }
{
    for one in all {
        prefix(alloc, names, one)?;
    }
    Ok(())
}

#[cycle(declares)]
fn prefix(alloc: Global, names: &mut Names, tree: &Prefix) -> Result<(), Memory>
    ensures { OnOk result (Puts (level.prefix_level tree.now) names.old names.new) }
{
    match tree {
        Prefix::Operator(_) | Prefix::Sizeof(_) => Ok(()),
        Prefix::Cast(_, name, _) => type_name(alloc, names, name),
    }
}

#[cycle(declares)]
fn nexts(alloc: Global, names: &mut Names, all: &[Next]) -> Result<(), Memory>
    ensures { OnOk result (Puts (in_row (map level.next_level all.now)) names.old names.new) }
{
    for one in all {
        expr(alloc, names, &one.operand)?;
    }
    Ok(())
}

#[cycle(declares)]
fn branches(alloc: Global, names: &mut Names, all: &[Branch]) -> Result<(), Memory>
    ensures { OnOk result (Puts (in_row (map level.branch_level all.now)) names.old names.new) }
{
    for one in all {
        expr(alloc, names, &one.gives)?;
        expr(alloc, names, &one.operand)?;
    }
    Ok(())
}

#[cycle(declares)]
fn type_name(alloc: Global, names: &mut Names, tree: &TypeName) -> Result<(), Memory>
    ensures { OnOk result (Puts (level.type_name_level tree.now) names.old names.new) }
{
    specifiers(alloc, names, tree.specifiers.as_slice())?;
    declarator(alloc, names, &tree.declarator)
}

#[cycle(declares)]
fn specifiers(alloc: Global, names: &mut Names, all: &[Specifier]) -> Result<(), Memory>
    ensures { OnOk result (Puts (in_row (map level.specifier_level all.now)) names.old names.new) }
{
    for one in all {
        specifier(alloc, names, one)?;
    }
    Ok(())
}

#[cycle(declares)]
fn specifier(alloc: Global, names: &mut Names, tree: &Specifier) -> Result<(), Memory>
    ensures { OnOk result (Puts (level.specifier_level tree.now) names.old names.new) }
{
    match tree {
        Specifier::Struct { members: all, .. } => members(alloc, names, all.as_slice()),
        Specifier::Enum {
            enumerators: all,
            ..
        } => enumerators(alloc, names, all.as_slice()),
        Specifier::Storage(_, _)
        | Specifier::Const(_)
        | Specifier::Word(_, _)
        | Specifier::StructTag(_, _)
        | Specifier::EnumTag(_, _)
        | Specifier::TypedefName(_) => Ok(()),
    }
}

#[cycle(declares)]
fn members(alloc: Global, names: &mut Names, all: &[Member]) -> Result<(), Memory>
    ensures { OnOk result (Puts (in_row (map level.member_level all.now)) names.old names.new) }
{
    for one in all {
        specifiers(alloc, names, one.specifiers.as_slice())?;
        member_declarators(alloc, names, one.declarators.as_slice())?;
    }
    Ok(())
}

#[cycle(declares)]
fn member_declarators(
    alloc: Global,
    names: &mut Names,
    all: &[MemberDeclarator],
) -> Result<(), Memory>
    ensures { OnOk result (Puts (in_row (map level.member_declarator_level all.now)) names.old names.new) }
{
    for one in all {
        declarator(alloc, names, &one.declarator)?;
    }
    Ok(())
}

#[cycle(declares)]
fn enumerators(alloc: Global, names: &mut Names, all: &[Enumerator]) -> Result<(), Memory>
    ensures { OnOk result (Puts (in_row (map level.enumerator_level all.now)) names.old names.new) }
{
    for one in all {
        enumerator(alloc, names, one)?;
    }
    Ok(())
}

#[cycle(declares)]
fn enumerator(alloc: Global, names: &mut Names, tree: &Enumerator) -> Result<(), Memory>
    ensures { OnOk result (Puts (level.enumerator_level tree.now) names.old names.new) }
{
    match tree {
        Enumerator::Plain(_, id) => declare(alloc, names, &id.text, false),
        Enumerator::Valued(_, id, _, value) => {
            expr(alloc, names, value)?;
            declare(alloc, names, &id.text, false)
        }
    }
}

#[cycle(declares)]
fn declarator(alloc: Global, names: &mut Names, tree: &Declarator) -> Result<(), Memory>
    ensures { OnOk result (Puts (level.declarator_level tree.now) names.old names.new) }
{
    direct(alloc, names, &tree.direct)?;
    declarator_suffixes(alloc, names, tree.suffixes.as_slice())
}

#[cycle(declares)]
fn direct(alloc: Global, names: &mut Names, tree: &Direct) -> Result<(), Memory>
    ensures { OnOk result (Puts (level.direct_level tree.now) names.old names.new) }
{
    match tree {
        Direct::Nothing | Direct::Named(_) => Ok(()),
        Direct::Grouped(_, inner, _) => declarator(alloc, names, inner.get()),
    }
}

#[cycle(declares)]
fn declarator_suffixes(
    alloc: Global,
    names: &mut Names,
    all: &[DeclaratorSuffix],
) -> Result<(), Memory>
    ensures { OnOk result (Puts (in_row (map level.declarator_suffix_level all.now)) names.old names.new) }
{
    for one in all {
        declarator_suffix(alloc, names, one)?;
    }
    Ok(())
}

#[cycle(declares)]
fn declarator_suffix(
    alloc: Global,
    names: &mut Names,
    tree: &DeclaratorSuffix,
) -> Result<(), Memory>
    ensures { OnOk result (Puts (level.declarator_suffix_level tree.now) names.old names.new) }
{
    match tree {
        DeclaratorSuffix::ArrayOf(_, size, _) => expr(alloc, names, size),
        DeclaratorSuffix::Array(_, _)
        | DeclaratorSuffix::Empty(_, _)
        | DeclaratorSuffix::Void(_, _, _)
        | DeclaratorSuffix::Parameters(_, _, _) => Ok(()),
    }
}

fn parameter(alloc: Global, names: &mut Names, tree: &Parameter) -> Result<(), Memory>
    ensures { OnOk result (Puts (level.parameter_level tree.now) names.old names.new) }
{
    specifiers(alloc, names, tree.specifiers.as_slice())?;
    declarator(alloc, names, &tree.declarator)?;
    match declared_name(&tree.declarator) {
        Some(name) => declare(alloc, names, name, have_typedef(tree.specifiers.as_slice())),
        None => Ok(()),
    }
}

/// Puts the names behind the others that the parameters of a list declare, in order.
pub fn parameters(alloc: Global, names: &mut Names, all: &[Parameter]) -> Result<(), Memory>
    ensures { OnOk result (Puts (in_row (map level.parameter_level all.now)) names.old names.new) }
{
    for one in all {
        parameter(alloc, names, one)?;
    }
    Ok(())
}
