//! What is known of a tree without typing it: its first token, and the name or the string that it is.
//! No walk and no row: nothing is asked of the types, and no fault is told.

ghost use Rattle.std.specs.Prelude.{◌≡◌, ◌++◌, ◌<◌, IfOk, IfSome, map};
ghost use Rattle.std.specs.Option.{option_copied};
ghost use Rattle.c_tree.specs.declared.expression.Expr.{out-Expr, size-Expr};
ghost use Rattle.c_typing.specs.Declarators as declarators;
ghost use Rattle.c_typing.specs.OfTrees as spec;
ghost use Rattle.c_typing.specs.Trees as typing;
ghost use Rattle.c_type_trees.specs.Calls as calls;
ghost use Rattle.c_type_trees.specs.Operands as operands;
ghost use Rattle.c_type_trees.specs.Strings.{literal_of};

use c_tree::{
    Declarator, DeclaratorSuffix, Direct, Expr, Identifier, Literal, Pointer, Pos, Prefix,
    Specifier, Suffix,
};
use std::alloc::Global;
use word_ops::{Memory, Text};

/// No place of a source: what stands for the first token of nothing.
pub(crate) const NOWHERE: Pos = Pos { line: 0, column: 0 };

/// The first token of an expression.
pub fn first_token(tree: &Expr) -> Pos
    ensures { result ≡ (typing.expr_typing tree.now).first }
{
    match tree {
        Expr::Name(name) => name.place,
        Expr::Number(_, _, place) => *place,
        Expr::Char(_, place) => *place,
        Expr::Strings(all) => first_literal(all.as_slice()),
        Expr::Paren(from, _, _) => *from,
        Expr::Postfix(operand, _) => first_token(operand.get()),
        Expr::SizeofType(place, _, _, _) => *place,
        Expr::Prefixed(run, operand) => { first_prefix(run.as_slice(), first_token(operand.get())) }
        Expr::Binary(_, first, _) => first_token(first.get()),
        Expr::Conditional(first, _) => first_token(first.get()),
        Expr::Assign(first, _) => first_token(first.get()),
        Expr::Comma(first, _) => first_token(first.get()),
    }
}

/// The place of the first of string literals that stand side by side.
pub(crate) fn first_literal(all: &[Literal]) -> Pos
    ensures { result ≡ spec.first_literal all.now }
{
    match all.first() {
        Some(one) => one.place,
        None => NOWHERE,
    }
}

/// The first token of a run of prefixes, or that of the operand behind it where there are none.
fn first_prefix(run: &[Prefix], operand: Pos) -> Pos
    ensures { result ≡ spec.first_prefix (map typing.prefix_typing run.now) operand }
{
    match run.first() {
        Some(one) => prefix_place(one),
        None => operand,
    }
}

fn prefix_place(tree: &Prefix) -> Pos
    ensures { result ≡ (typing.prefix_typing tree.now).first }
{
    match tree {
        Prefix::Operator(mark) => mark.place,
        Prefix::Sizeof(place) => *place,
        Prefix::Cast(from, _, _) => *from,
    }
}

/// The operand with which an expression begins that has operators behind it, or is in parentheses.
pub(crate) fn first_operand(tree: &Expr) -> Option<&Expr>
    ensures first { option_copied result ≡ operands.first_operand (out-Expr tree.now) }
    ensures smaller { IfSome result (λ e. size-Expr e.now < size-Expr tree.now) }
{
    match tree {
        Expr::Name(_) => None,
        Expr::Number(_, _, _) => None,
        Expr::Char(_, _) => None,
        Expr::Strings(_) => None,
        Expr::Paren(_, first, _) => Some(first.get()),
        Expr::Postfix(_, _) => None,
        Expr::SizeofType(_, _, _, _) => None,
        Expr::Prefixed(_, _) => None,
        Expr::Binary(_, first, _) => Some(first.get()),
        Expr::Conditional(first, _) => Some(first.get()),
        Expr::Assign(first, _) => Some(first.get()),
        Expr::Comma(first, _) => Some(first.get()),
    }
}

/// The name that an expression is, without parentheses.
pub fn callee(tree: &Expr) -> Option<&Identifier>
    ensures { option_copied result ≡ (typing.expr_typing tree.now).callee }
{
    match tree {
        Expr::Name(name) => Some(name),
        Expr::Number(_, _, _) => None,
        Expr::Char(_, _) => None,
        Expr::Strings(_) => None,
        Expr::Paren(_, _, _) => None,
        Expr::Postfix(_, _) => None,
        Expr::SizeofType(_, _, _, _) => None,
        Expr::Prefixed(_, _) => None,
        Expr::Binary(_, _, _) => None,
        Expr::Conditional(_, _) => None,
        Expr::Assign(_, _) => None,
        Expr::Comma(_, _) => None,
    }
}

/// The bytes of the string that an expression is, without parentheses (C11 6.4.5p6).
///
/// # Errors
///
/// `Memory` where memory is wanting.
pub fn literal(alloc: Global, tree: &Expr) -> Result<Option<Text>, Memory>
    ensures { IfOk result (λ bytes. bytes ≡ (typing.expr_typing tree.now).literal) }
{
    match strings_of(tree) {
        Some(all) => Ok(Some(bytes_of_all(alloc, all)?)),
        None => Ok(None),
    }
}

/// The string literals that an expression is.
fn strings_of(tree: &Expr) -> Option<&[Literal]>
    ensures { literal_of result ≡ (typing.expr_typing tree.now).literal }
{
    match tree {
        Expr::Name(_) => None,
        Expr::Number(_, _, _) => None,
        Expr::Char(_, _) => None,
        Expr::Strings(all) => Some(all.as_slice()),
        Expr::Paren(_, _, _) => None,
        Expr::Postfix(_, _) => None,
        Expr::SizeofType(_, _, _, _) => None,
        Expr::Prefixed(_, _) => None,
        Expr::Binary(_, _, _) => None,
        Expr::Conditional(_, _) => None,
        Expr::Assign(_, _) => None,
        Expr::Comma(_, _) => None,
    }
}

/// The bytes of string literals that stand side by side, as one (C11 6.4.5p5).
///
/// # Errors
///
/// `Memory` where memory is wanting.
pub(crate) fn bytes_of_all(alloc: Global, all: &[Literal]) -> Result<Text, Memory>
    ensures { IfOk result (λ bytes. bytes ≡ spec.bytes_of_all all.now) }
{
    let mut bytes = Vec::new(alloc);
    for one in all {
        or_drop!(bytes.extend_from_slice(one.bytes.as_slice()), bytes);
    }
    Ok(Text::from_vec(bytes))
}

/// The first token of specifiers.
pub fn first_specifier(list: &[Specifier]) -> Pos
    ensures { result ≡ declarators.first_token (map typing.specifier_typing list.now) }
{
    match list.first() {
        Some(one) => specifier_place(one),
        None => NOWHERE,
    }
}

fn specifier_place(tree: &Specifier) -> Pos
    ensures { result ≡ (typing.specifier_typing tree.now).first }
{
    match tree {
        Specifier::Storage(_, place) => *place,
        Specifier::Const(place) => *place,
        Specifier::Word(_, place) => *place,
        Specifier::StructTag(place, _) => *place,
        Specifier::Struct { word, .. } => *word,
        Specifier::EnumTag(place, _) => *place,
        Specifier::Enum { word, .. } => *word,
        Specifier::TypedefName(name) => name.place,
    }
}

/// The name that a declarator declares, where it has one (C11 6.7.6).
#[cycle(name)]
pub fn name(tree: &Declarator) -> Option<&Identifier>
    ensures { option_copied result ≡ (typing.declarator_typing tree.now).name }
{
    direct_name(&tree.direct)
}

#[cycle(name)]
fn direct_name(tree: &Direct) -> Option<&Identifier>
    ensures { option_copied result ≡ (typing.direct_typing tree.now).name }
{
    match tree {
        Direct::Nothing => None,
        Direct::Named(name) => Some(name),
        Direct::Grouped(_, inner, _) => name(inner.get()),
    }
}

/// Whether the outermost part of a declarator makes a function, where it has a part (C11 6.7.6).
#[cycle(makes)]
pub fn makes(tree: &Declarator) -> Option<bool>
    ensures { result ≡ (typing.declarator_typing tree.now).makes }
{
    match direct_makes(&tree.direct) {
        Some(function) => Some(function),
        None => own_makes(tree.suffixes.as_slice(), tree.pointers.as_slice()),
    }
}

/// The same of a declarator's middle.
#[cycle(makes)]
pub(crate) fn direct_makes(tree: &Direct) -> Option<bool>
    ensures { result ≡ (typing.direct_typing tree.now).makes }
{
    match tree {
        Direct::Nothing => None,
        Direct::Named(_) => None,
        Direct::Grouped(_, inner, _) => makes(inner.get()),
    }
}

/// The same of what stands around a declarator's middle: the part beside it comes first.
fn own_makes(suffixes: &[DeclaratorSuffix], pointers: &[Pointer]) -> Option<bool>
    ensures { result ≡ spec.makes_by (map typing.declarator_suffix_typing suffixes.now) pointers.now }
{
    match suffixes.first() {
        Some(one) => Some(is_parameter_list(one)),
        None => {
            if pointers.is_empty() {
                None
            } else {
                Some(false)
            }
        }
    }
}

fn is_parameter_list(tree: &DeclaratorSuffix) -> bool
    ensures { result ≡ (typing.declarator_suffix_typing tree.now).makes }
{
    match tree {
        DeclaratorSuffix::Array(_, _) => false,
        DeclaratorSuffix::ArrayOf(_, _, _) => false,
        DeclaratorSuffix::Empty(_, _) => true,
        DeclaratorSuffix::Void(_, _, _) => true,
        DeclaratorSuffix::Parameters(_, _, _) => true,
    }
}

/// The name that stands directly before the `(` of a call, where there is one.
pub(crate) fn called<'a>(operand: &'a Expr, all: &[Suffix]) -> Option<&'a Identifier>
    ensures { option_copied result ≡ calls.called (typing.expr_typing operand.now).callee (map typing.suffix_typing all.now) }
{
    match all.first() {
        Some(first) => {
            if is_call(first) {
                callee(operand)
            } else {
                None
            }
        }
        None => None,
    }
}

fn is_call(tree: &Suffix) -> bool
    ensures { result ≡ calls.is_call (typing.suffix_typing tree.now) }
{
    match tree {
        Suffix::Index(_, _, _) => false,
        Suffix::Call(_, _) => true,
        Suffix::CallWith(_, _, _, _) => true,
        Suffix::Member(_, _) => false,
        Suffix::Arrow(_, _) => false,
        Suffix::Increment(_) => false,
        Suffix::Decrement(_) => false,
    }
}

/// The place of the `(` of a call.
pub(crate) fn call_place(tree: &Suffix) -> Pos
    ensures { result ≡ calls.call_place (typing.suffix_typing tree.now) }
{
    match tree {
        Suffix::Index(_, _, _) => NOWHERE,
        Suffix::Call(place, _) => *place,
        Suffix::CallWith(place, _, _, _) => *place,
        Suffix::Member(_, _) => NOWHERE,
        Suffix::Arrow(_, _) => NOWHERE,
        Suffix::Increment(_) => NOWHERE,
        Suffix::Decrement(_) => NOWHERE,
    }
}
