//! Nodes with a list, where the list has a part; and what a tree is, as far as the grammar asks.
//! The shapes of trees are those that the grammar gives to its lists.

ghost use Rattle.std.specs.Prelude.{◌≡◌, MatchResult};
ghost use Rattle.std.specs.Option.{option_copied};
ghost use Rattle.c_tree.specs.Levels.Names.{Names};
ghost use Rattle.c_tree.specs.Levels.Trees.{declarator_level};
ghost use Rattle.c_grammar.specs.Read.Nodes as spec;
ghost use Rattle.c_tree.specs.Levels.Facts.{kind_of_mark};
ghost use Rattle.c_tree.specs.declared.declarator.Direct.{out-Direct};
ghost use Rattle.c_expr_parser.specs.declared.fault.Stop.TheVariants as stop;

use crate::fault::Stop;
use crate::memory::boxed;
use c_tree::{
    Branch, Declarator, Direct, Expr, Level, Next, Prefix, Punct, Specifier, Storage, Suffix,
};
use std::alloc::Global;
use word_ops::{Items, Text};

/// A postfix expression (C11 6.5.2), or its operand where there is no suffix.
#[inline(never)]
pub fn with_suffixes(alloc: Global, first: Expr, rest: Items<Suffix>) -> Result<Expr, Stop>
    ensures { MatchResult result (λ e. e ≡ spec.with_suffixes first rest) (λ e. e ≡ stop.Memory) }
{
    if rest.is_empty() {
        drop(rest);
        return Ok(first);
    }
    let first = or_drop!(boxed(alloc, first), rest);
    Ok(Expr::Postfix(first, rest))
}

/// An operand with the prefixes before it (C11 6.5.3, 6.5.4), or alone where there is none.
#[inline(never)]
pub fn with_run(alloc: Global, run: Items<Prefix>, operand: Expr) -> Result<Expr, Stop>
    ensures { MatchResult result (λ e. e ≡ spec.with_run run operand) (λ e. e ≡ stop.Memory) }
{
    if run.is_empty() {
        drop(run);
        return Ok(operand);
    }
    let operand = or_drop!(boxed(alloc, operand), run);
    Ok(Expr::Prefixed(run, operand))
}

/// Operators of a level with their operands (C11 6.5.5 to 6.5.14), or the first operand where there is no operator.
#[inline(never)]
pub fn with_operands(
    alloc: Global,
    level: Level,
    first: Expr,
    rest: Items<Next>,
) -> Result<Expr, Stop>
    ensures { MatchResult result (λ e. e ≡ spec.with_operands level first rest) (λ e. e ≡ stop.Memory) }
{
    if rest.is_empty() {
        drop(rest);
        return Ok(first);
    }
    let first = or_drop!(boxed(alloc, first), rest);
    Ok(Expr::Binary(level, first, rest))
}

/// A conditional expression (C11 6.5.15), or its first operand where there is no `?`.
#[inline(never)]
pub fn with_branches(alloc: Global, first: Expr, rest: Items<Branch>) -> Result<Expr, Stop>
    ensures { MatchResult result (λ e. e ≡ spec.with_branches first rest) (λ e. e ≡ stop.Memory) }
{
    if rest.is_empty() {
        drop(rest);
        return Ok(first);
    }
    let first = or_drop!(boxed(alloc, first), rest);
    Ok(Expr::Conditional(first, rest))
}

/// An assignment (C11 6.5.16), or its first operand where nothing is assigned.
#[inline(never)]
pub fn with_targets(alloc: Global, first: Expr, rest: Items<Next>) -> Result<Expr, Stop>
    ensures { MatchResult result (λ e. e ≡ spec.with_targets first rest) (λ e. e ≡ stop.Memory) }
{
    if rest.is_empty() {
        drop(rest);
        return Ok(first);
    }
    let first = or_drop!(boxed(alloc, first), rest);
    Ok(Expr::Assign(first, rest))
}

/// Operands with commas between (C11 6.5.17), or the first where there is no comma.
#[inline(never)]
pub fn with_commas(alloc: Global, first: Expr, rest: Items<Next>) -> Result<Expr, Stop>
    ensures { MatchResult result (λ e. e ≡ spec.with_commas first rest) (λ e. e ≡ stop.Memory) }
{
    if rest.is_empty() {
        drop(rest);
        return Ok(first);
    }
    let first = or_drop!(boxed(alloc, first), rest);
    Ok(Expr::Comma(first, rest))
}

#[tactic(auto, unfolding(c_grammar::specs::Read::Nodes::is_cast))]
fn is_cast(prefix: &Prefix) -> bool
    ensures { result ≡ spec.is_cast prefix.now }
{
    match prefix {
        Prefix::Cast(_, _, _) => true,
        Prefix::Operator(_) | Prefix::Sizeof(_) => false,
    }
}

fn begins_cast(run: &[Prefix]) -> bool
    ensures { result ≡ spec.begins_cast run.now }
{
    match run {
        [] => false,
        [first, ..] => is_cast(first),
    }
}

/// What may stand before an assignment's operator: a unary expression (C11 6.5.16).
#[tactic(auto, unfolding(c_grammar::specs::Read::Nodes::is_unary))]
pub fn is_unary(tree: &Expr) -> bool
    ensures { result ≡ spec.is_unary tree.now }
{
    match tree {
        Expr::Prefixed(run, _) => !begins_cast(run.as_slice()),
        Expr::Binary(_, _, _) | Expr::Conditional(_, _) | Expr::Assign(_, _) | Expr::Comma(_, _) =>
            false,
        Expr::Name(_)
        | Expr::Number(_, _, _)
        | Expr::Char(_, _)
        | Expr::Strings(_)
        | Expr::Paren(_, _, _)
        | Expr::Postfix(_, _)
        | Expr::SizeofType(_, _, _, _) => true,
    }
}

/// `++`, `--` or `sizeof`, behind which no `(` type name `)` may stand.
#[tactic(auto, unfolding(c_grammar::specs::Read::Nodes::ties))]
pub fn ties(prefix: &Prefix) -> bool
    ensures { result ≡ spec.ties prefix.now }
{
    match prefix {
        Prefix::Operator(mark) => is_tight(mark.punct),
        Prefix::Sizeof(_) => true,
        Prefix::Cast(_, _, _) => false,
    }
}

fn is_tight(op: Punct) -> bool
    ensures { result ≡ spec.is_tight (kind_of_mark op) }
{
    match op {
        Punct::Increment | Punct::Decrement => true,
        _ => false,
    }
}

/// A type word, a struct, an enum or a typedef name.
#[tactic(auto, unfolding(c_grammar::specs::Read::Nodes::is_type))]
pub fn is_type(specifier: &Specifier) -> bool
    ensures { result ≡ spec.is_type specifier.now }
{
    match specifier {
        Specifier::Storage(_, _) | Specifier::Const(_) => false,
        Specifier::Word(_, _)
        | Specifier::StructTag(_, _)
        | Specifier::Struct { .. }
        | Specifier::EnumTag(_, _)
        | Specifier::Enum { .. }
        | Specifier::TypedefName(_) => true,
    }
}

#[tactic(auto, unfolding(c_grammar::specs::Read::Nodes::is_typedef_word))]
fn is_typedef_word(specifier: &Specifier) -> bool
    ensures { result ≡ spec.is_typedef_word specifier.now }
{
    match specifier {
        Specifier::Storage(storage, _) => match storage {
            Storage::Typedef => true,
            Storage::Extern | Storage::Static | Storage::Auto | Storage::Register => false,
        },
        Specifier::Const(_)
        | Specifier::Word(_, _)
        | Specifier::StructTag(_, _)
        | Specifier::Struct { .. }
        | Specifier::EnumTag(_, _)
        | Specifier::Enum { .. }
        | Specifier::TypedefName(_) => false,
    }
}

/// One of them names a type.
pub fn name_type(specifiers: &[Specifier]) -> bool
    ensures { result ≡ spec.name_type specifiers.now }
{
    for specifier in specifiers {
        if is_type(specifier) {
            return true;
        }
    }
    false
}

/// `typedef` is among them.
pub fn have_typedef(specifiers: &[Specifier]) -> bool
    ensures { result ≡ spec.have_typedef specifiers.now }
{
    for specifier in specifiers {
        if is_typedef_word(specifier) {
            return true;
        }
    }
    false
}

fn has_nothing(middle: &Direct) -> bool
    ensures { result ≡ spec.is_nothing_layer (out-Direct middle.now) }
{
    match middle {
        Direct::Nothing => true,
        Direct::Named(_) | Direct::Grouped(_, _, _) => false,
    }
}

/// It has no token.
#[tactic(auto, unfolding(c_grammar::specs::Read::Nodes::is_nothing))]
pub fn is_nothing(tree: &Declarator) -> bool
    ensures { result ≡ spec.is_nothing tree.now }
{
    tree.pointers.is_empty() && has_nothing(&tree.direct) && tree.suffixes.is_empty()
}

/// The name that a declarator declares.
pub fn declared_name(tree: &Declarator) -> Option<&Text>
    ensures { (names : Names) → option_copied result ≡ (declarator_level tree.now names).0.name }
{
    match &tree.direct {
        Direct::Nothing => None,
        Direct::Named(id) => Some(&id.text),
        Direct::Grouped(_, inner, _) => declared_name(inner.get()),
    }
}
