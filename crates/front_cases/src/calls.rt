//! The calls that cases are handed to, by the names that the files of cases give them.

ghost use Rattle.c_tree.specs.Levelled.{IsUnit};

use crate::answers::{
    put_declarator_answer, put_end, put_expression_answer, put_parse_fault, put_specifiers_answer,
};
use crate::outline::put_externals;
use crate::tokens::{are_of_kinds, put_lex_fault, put_tokens};
use crate::typed::{put_addresses, put_fault, put_given};
use c_expr_parser::{Names, Use, assignment, conditional, declarator, expression, specifiers};
use c_lexer::lex;
use c_tree::typed::Typed;
use c_tree::{Definition, External, TokenKind, Tokens, Unit, definition_tokens, spell};
use c_types::check;
use c_unit_parser::parse;
use scope_map::ScopeMap;
use std::alloc::{AllocError, Global};
use word_ops::{Memory, Text};

/// A call of a layer, and how its answer is told.
#[derive(Clone, Copy)]
pub enum Call {
    /// `tokens`: the tokens with their places
    Tokens,
    /// `expression`
    Expression,
    /// `assignment`
    Assignment,
    /// `conditional`
    Conditional,
    /// `reach-expression`, where so many brackets are open before it (`reach-expression:DEPTH`): only the place behind it
    ReachExpression(u32),
    /// `reach-specifiers`
    ReachSpecifiers,
    /// `reach-declarator`
    ReachDeclarator,
    /// `specifiers`, or `bare-specifiers` without storage words
    Specifiers(bool),
    /// `declarator`, `untyped-declarator` behind specifiers that name no type, `abstract` or `parameter`
    Declarator(Use, bool),
    /// `unit`: how its statements and initialisers are put together
    Unit,
    /// `count`: how many tokens the unit is spelt by, and whether they are those of the source
    Count,
    /// `definitions`: how many tokens each function definition is spelt by
    Definitions,
    /// `types`: `typed`, or the fault
    Types,
    /// `given`: the number that the one statement of `main` gives back
    Given,
    /// `addresses`: where the addresses with which static objects begin lie in their objects
    Addresses,
}

/// The call that the first word of a title names.
pub fn call_of(title: &str) -> Option<Call> {
    match title.split(' ').next() {
        Some(word) => call_named(word),
        None => None,
    }
}

fn call_named(word: &str) -> Option<Call> {
    match word {
        "tokens" => Some(Call::Tokens),
        "assignment" => Some(Call::Assignment),
        "conditional" => Some(Call::Conditional),
        "specifiers" => Some(Call::Specifiers(true)),
        "bare-specifiers" => Some(Call::Specifiers(false)),
        "declarator" => Some(Call::Declarator(Use::Declaring, true)),
        "untyped-declarator" => Some(Call::Declarator(Use::Declaring, false)),
        "abstract" => Some(Call::Declarator(Use::Abstract, true)),
        "parameter" => Some(Call::Declarator(Use::Parameter, true)),
        "unit" => Some(Call::Unit),
        "count" => Some(Call::Count),
        "definitions" => Some(Call::Definitions),
        "types" => Some(Call::Types),
        "given" => Some(Call::Given),
        "addresses" => Some(Call::Addresses),
        "expression" => Some(Call::Expression),
        "reach-specifiers" => Some(Call::ReachSpecifiers),
        "reach-declarator" => Some(Call::ReachDeclarator),
        word => reach_named(word),
    }
}

/// `reach-expression`, or `reach-expression:DEPTH`.
fn reach_named(word: &str) -> Option<Call> {
    let depth = word.strip_prefix("reach-expression")?;
    match depth.strip_prefix(":") {
        Some(number) => number.parse::<u32>().ok().map(Call::ReachExpression),
        None => Some(Call::ReachExpression(0)),
    }
}

/// The greatest length of a source that `lex` takes, in bytes.
const LONGEST: usize = u32::MAX as usize - 1;

/// What a call answers to a source.
pub fn answer(alloc: Global, call: Call, source: &[u8]) -> Result<String, Memory> {
    let mut out = String::new(alloc);
    if source.len() > LONGEST {
        return Ok(out);
    }
    match lex(alloc, source) {
        Ok(tokens) => put_answer(alloc, &mut out, call, &tokens)?,
        Err(fault) => put_lex_fault(&mut out, &fault)?,
    }
    Ok(out)
}

/// Puts what a call answers to tokens.
fn put_answer(alloc: Global, out: &mut String, call: Call, tokens: &Tokens) -> Result<(), Memory> {
    match call {
        Call::Tokens => put_tokens(out, tokens).map_err(Memory::from),
        Call::Expression | Call::Assignment | Call::Conditional => {
            put_read_expression(alloc, out, call, tokens)
        }
        Call::ReachExpression(_) | Call::ReachSpecifiers | Call::ReachDeclarator => {
            put_read_end(alloc, out, call, tokens)
        }
        Call::Specifiers(storage) => put_read_specifiers(alloc, out, storage, tokens),
        Call::Declarator(purpose, typed) => {
            put_read_declarator(alloc, out, purpose, typed, tokens)
        }
        call => put_read_unit(alloc, out, call, tokens),
    }
}

/// Names in which `T` is a typedef name.
fn with_t(alloc: Global) -> Result<Names, Memory> {
    let mut names = ScopeMap::new(alloc);
    names.insert(letter_t(alloc)?, true)?;
    Ok(names)
}

fn letter_t(alloc: Global) -> Result<Text, Memory> {
    Ok(Text::from_vec(Vec::from_slice(alloc, b"T")?))
}

fn put_read_expression(
    alloc: Global,
    out: &mut String,
    call: Call,
    tokens: &Tokens,
) -> Result<(), Memory> {
    let mut names = with_t(alloc)?;
    let read = match call {
        Call::Assignment => assignment(alloc, tokens, 0, &mut names, 0),
        Call::Conditional => conditional(alloc, tokens, 0, &mut names, 0),
        _ => expression(alloc, tokens, 0, &mut names, 0),
    };
    put_expression_answer(out, &read).map_err(Memory::from)
}

/// Puts only the place behind what was read.
fn put_read_end(
    alloc: Global,
    out: &mut String,
    call: Call,
    tokens: &Tokens,
) -> Result<(), Memory> {
    let mut names = with_t(alloc)?;
    let end = match call {
        Call::ReachExpression(depth) => {
            expression(alloc, tokens, 0, &mut names, depth.min(256)).map(|read| read.1)
        }
        Call::ReachSpecifiers => {
            specifiers(alloc, tokens, 0, &mut names, 0, true).map(|read| read.1)
        }
        _ => {
            declarator(alloc, tokens, 0, &mut names, 0, Use::Declaring, true).map(|read| read.1)
        }
    };
    put_end(out, &end).map_err(Memory::from)
}

fn put_read_specifiers(
    alloc: Global,
    out: &mut String,
    storage: bool,
    tokens: &Tokens,
) -> Result<(), Memory> {
    let mut names = with_t(alloc)?;
    let read = specifiers(alloc, tokens, 0, &mut names, 0, storage);
    match put_specifiers_answer(out, &read) {
        Ok(()) => put_names(alloc, out, &names),
        Err(_) => Err(Memory),
    }
}

fn put_read_declarator(
    alloc: Global,
    out: &mut String,
    purpose: Use,
    typed: bool,
    tokens: &Tokens,
) -> Result<(), Memory> {
    let mut names = with_t(alloc)?;
    let read = declarator(alloc, tokens, 0, &mut names, 0, purpose, typed);
    match put_declarator_answer(out, &read) {
        Ok(()) => put_names(alloc, out, &names),
        Err(_) => Err(Memory),
    }
}

/// Puts how many names there are, and whether `T` is a typedef name.
fn put_names(alloc: Global, out: &mut String, names: &Names) -> Result<(), Memory> {
    let t = letter_t(alloc)?;
    let kind = match names.get(&t) {
        Some(true) => "a type",
        Some(false) => "no type",
        None => "no name",
    };
    write!(out, "; names {}, T {kind}", names.mark()).map_err(Memory::from)
}

fn put_read_unit(
    alloc: Global,
    out: &mut String,
    call: Call,
    tokens: &Tokens,
) -> Result<(), Memory> {
    match parse(alloc, tokens) {
        Ok(unit) => put_unit(alloc, out, call, tokens, &unit),
        Err(fault) => put_parse_fault(out, &fault).map_err(Memory::from),
    }
}

/// Puts what a call answers to a unit.
fn put_unit(
    alloc: Global,
    out: &mut String,
    call: Call,
    tokens: &Tokens,
    unit: &Unit,
) -> Result<(), Memory>
    requires { IsUnit unit.now }
{
    match call {
        Call::Count => put_count(alloc, out, tokens, unit),
        Call::Definitions => put_lengths(out, unit.items.as_slice()),
        Call::Unit => put_externals(out, unit.items.as_slice()).map_err(Memory::from),
        call => put_checked(alloc, out, call, unit).map_err(Memory::from),
    }
}

/// Puts what a call answers to a unit and its types.
fn put_checked(alloc: Global, out: &mut String, call: Call, unit: &Unit) -> Result<(), AllocError>
    requires { IsUnit unit.now }
{
    match check(alloc, unit) {
        Ok(typed) => put_typed(out, call, &typed),
        Err(fault) => put_fault(out, &fault),
    }
}

fn put_typed(out: &mut String, call: Call, typed: &Typed) -> Result<(), AllocError> {
    match call {
        Call::Given => put_given(out, typed),
        Call::Addresses => put_addresses(out, typed),
        _ => out.push_str("typed"),
    }
}

/// Puts how many tokens the unit is spelt by, where the source ends, and whether the tokens are those of the source.
fn put_count(alloc: Global, out: &mut String, tokens: &Tokens, unit: &Unit) -> Result<(), Memory> {
    let kinds = spell(alloc, unit)?;
    put_spelling(alloc, out, tokens, kinds.as_slice())
}

fn put_spelling(
    alloc: Global,
    out: &mut String,
    tokens: &Tokens,
    kinds: &[TokenKind],
) -> Result<(), Memory> {
    if !are_of_kinds(alloc, tokens.list.as_slice(), kinds)? {
        out.push_str("others: ")?;
    }
    let end = tokens.end;
    write!(out, "{} tokens to {}:{}", kinds.len(), end.line, end.column).map_err(Memory::from)
}

/// Puts how many tokens each function definition is spelt by.
fn put_lengths(out: &mut String, items: &[External]) -> Result<(), Memory> {
    for item in items {
        if let External::Definition(definition) = item {
            put_length(out, definition)?;
        }
    }
    Ok(())
}

fn put_length(out: &mut String, definition: &Definition) -> Result<(), Memory> {
    let tokens = definition_tokens(definition)?;
    write!(out, "{tokens} ").map_err(Memory::from)
}
