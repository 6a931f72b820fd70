//! The rows of `? :` (C11 6.5.15), which are read from the right: `Chain` keeps the
//! conditions that were passed, and the last operand.

ghost use Rattle.std.specs.Prelude.{◌≡◌, ◌&&◌, ◌++◌, ◌∷◌, [], false, IfOk, map, reverse};
ghost use Rattle.std.specs.Option.{option_map};
ghost use Rattle.c_typing.specs.Types as types;
ghost use Rattle.c_typing.specs.Operands.{value};
ghost use Rattle.c_typing.specs.Operators as operators;
ghost use Rattle.c_typing.specs.Expressions as spec;
ghost use Rattle.c_typing.specs.OfTrees as trees;
ghost use Rattle.c_type_expressions.specs.declared.chains.Chain.TheVariants as chain;
ghost use Rattle.c_type_expressions.specs.Told.{WalksAs};
ghost use Rattle.c_type_expressions.specs.Chains as chains;
ghost use Rattle.c_type_expressions.specs.Chains.{chain_of, settled_behind, gives_integer, ends_in_null, longer, arm_at};

use crate::refusals::refused;
use crate::trees::{tree_at, with_item};
use crate::truth::truth_row;
use c_tree::typed::{Arm, CType, TExpr};
use c_tree::{FaultKind, Pos};
use c_type_rules::{
    chosen_by, copied, dropping, is_integer, is_null_constant, is_pointer, is_void, tree_of, value,
    valued,
};
use c_type_walk::{Around, Found};
use c_typing::Operand;
use std::alloc::Global;
use word_ops::{Boxed, Items, Memory};

/// A chain of `? :` as far as it has been read, from the right (C11 6.5.15). Its tree is made once, by `chain_value`.
#[derive(Drop)]
pub enum Chain {
    /// the last operand alone
    End(Operand),
    /// the last operand and the conditions before it
    Choices(Choices),
}

/// Choices that stand in a row.
#[derive(Drop)]
pub struct Choices {
    /// the type of the whole
    pub ctype: CType,
    /// the conditions, each with what is chosen where it holds, the last one first
    pub arms: Items<(Operand, Operand)>,
    /// what is chosen where none holds
    pub last: Operand,
}

/// The end of a chain: its last operand.
///
/// # Errors
///
/// `Memory` where memory is wanting.
pub fn chain_end(alloc: Global, operand: Operand) -> Result<Chain, Memory>
    ensures { IfOk result (λ chain. chain_of chain ≡ trees.chain_end operand) }
{
    Ok(Chain::End(valued(alloc, operand)?))
}

/// The value of a whole chain (C11 6.5.15p4, p5).
///
/// # Errors
///
/// `Memory` where memory is wanting.
pub fn chain_value(alloc: Global, chain: Chain) -> Result<Operand, Memory>
    ensures { IfOk result (λ o. o ≡ (chain_of chain).whole) }
{
    match chain {
        Chain::End(operand) => Ok(operand),
        Chain::Choices(choices) => choices_value(alloc, choices),
    }
}

/// The value of choices.
fn choices_value(alloc: Global, choices: Choices) -> Result<Operand, Memory>
    ensures { IfOk result (λ o. o ≡ value choices.ctype (spec.choose choices.ctype (reverse choices.arms) choices.last)) }
{
    let Choices { ctype, arms, last } = choices;
    let Ok(arms) = chosen_arms(alloc, &ctype, arms) else {
        drop((ctype, last));
        return Err(Memory);
    };
    let Ok(last) = last_choice(alloc, &ctype, last) else {
        drop((ctype, arms));
        return Err(Memory);
    };
    let Ok(again) = copied(alloc, &ctype) else {
        drop((ctype, arms, last));
        return Err(Memory);
    };
    Ok(value(alloc, ctype, TExpr::Choose(again, arms, last)))
}

/// What is chosen where no condition holds, in a box.
fn last_choice(alloc: Global, ctype: &CType, last: Operand) -> Result<Boxed<TExpr>, Memory>
    ensures { IfOk result (λ tree. tree ≡ spec.chosen_as ctype.now last) }
{
    Ok(Boxed::new(alloc, chosen_as(alloc, ctype, last)?)?)
}

/// A chain with one more condition in front, and what is chosen where that holds (C11 6.5.15p2, p3).
///
/// # Errors
///
/// `Memory` where memory is wanting.
pub fn conditional_row(
    alloc: Global,
    found: &mut Found,
    around: &Around<'_>,
    place: Pos,
    condition: Option<Operand>,
    gives: Option<Operand>,
    rest: Option<Chain>,
) -> Result<Option<Chain>, Memory>
    ensures { WalksAs chain_of (spec.conditional_row place condition gives (option_map chain_of rest)) around.now found.old result found.new }
{
    let Some(condition) = condition else {
        drop((gives, rest));
        return Ok(None);
    };
    let Ok(condition) = truth_row(alloc, found, around, place, condition) else {
        drop((gives, rest));
        return Err(Memory);
    };
    chosen_between(alloc, found, around, place, condition, gives, rest)
}

/// The same behind the condition, of which the truth is told.
fn chosen_between(
    alloc: Global,
    found: &mut Found,
    around: &Around<'_>,
    place: Pos,
    condition: Option<Operand>,
    gives: Option<Operand>,
    rest: Option<Chain>,
) -> Result<Option<Chain>, Memory>
    ensures { WalksAs chain_of (chains.chosen_between place condition gives (option_map chain_of rest)) around.now found.old result found.new }
{
    let Some(gives) = gives else {
        drop((condition, rest));
        return Ok(None);
    };
    let Some(rest) = rest else {
        drop((condition, gives));
        return Ok(None);
    };
    let Some(condition) = condition else {
        drop((gives, rest));
        return Ok(None);
    };
    let Ok(gives) = valued(alloc, gives) else {
        drop((condition, rest));
        return Err(Memory);
    };
    chosen_row(alloc, found, around, place, condition, gives, rest)
}

/// The same of operands without faults.
fn chosen_row(
    alloc: Global,
    found: &mut Found,
    around: &Around<'_>,
    place: Pos,
    condition: Operand,
    gives: Operand,
    rest: Chain,
) -> Result<Option<Chain>, Memory>
    ensures { WalksAs chain_of (spec.chosen_if place condition gives (chain_of rest) (operators.chosen gives (chain_of rest).whole)) around.now found.old result found.new }
{
    let Ok(rest) = settled(alloc, &gives.ctype, rest) else {
        drop((condition, gives));
        return Err(Memory);
    };
    settled_row(alloc, found, around, place, condition, gives, rest)
}

/// The same before a chain of which the tree is not wanted.
fn settled_row(
    alloc: Global,
    found: &mut Found,
    around: &Around<'_>,
    place: Pos,
    condition: Operand,
    gives: Operand,
    rest: Chain,
) -> Result<Option<Chain>, Memory>
    requires { (types.is_pointer gives.ctype && gives_integer rest) ≡ false }
    ensures { WalksAs chain_of (spec.chosen_if place condition gives (chain_of rest) (operators.chosen gives (chain_of rest).whole)) around.now found.old result found.new }
{
    let Ok(ctype) = chosen_type(alloc, &gives, &rest) else {
        drop((condition, gives, rest));
        return Err(Memory);
    };
    let Some(ctype) = ctype else {
        return refused(
            found,
            around,
            FaultKind::Mismatch,
            place,
            (condition, gives, rest),
        );
    };
    Ok(Some(lengthened(alloc, ctype, (condition, gives), rest)?))
}

/// A chain behind an operand of this type: where that is a pointer and the chain gives an integer, the two go together only
/// if the chain is a null pointer constant, which gives way as a whole (C11 6.5.15p3, p6). So its tree is made.
fn settled(alloc: Global, before: &CType, chain: Chain) -> Result<Chain, Memory>
    ensures { IfOk result (λ r. r ≡ settled_behind before.now chain) }
{
    if is_pointer(before) && chain.gives_integer() {
        Ok(Chain::End(chain_value(alloc, chain)?))
    } else {
        Ok(chain)
    }
}

impl Chain {
    /// The type of its value.
    fn ctype(&self) -> &CType
        ensures { result.now ≡ (chain_of self.now).whole.ctype }
    {
        match self {
            Chain::End(operand) => &operand.ctype,
            Chain::Choices(choices) => &choices.ctype,
        }
    }

    /// Whether there is a choice, between integers.
    fn gives_integer(&self) -> bool
        ensures { result ≡ gives_integer self.now }
    {
        match self {
            Chain::End(_) => false,
            Chain::Choices(choices) => is_integer(&choices.ctype),
        }
    }

    /// Whether it is one operand, and a null pointer constant.
    fn is_null(&self) -> bool
        ensures { result ≡ ends_in_null self.now }
    {
        match self {
            Chain::End(operand) => is_null_constant(operand),
            Chain::Choices(_) => false,
        }
    }
}

/// The type of an operand and a chain as one (C11 6.5.15p3, p5, p6), or `None` where they do not go together.
fn chosen_type(alloc: Global, gives: &Operand, rest: &Chain) -> Result<Option<CType>, Memory>
    requires { (types.is_pointer gives.now.ctype && gives_integer rest.now) ≡ false }
    ensures { IfOk result (λ t. t ≡ operators.chosen gives.now (chain_of rest.now).whole) }
{
    chosen_by(
        alloc,
        &gives.ctype,
        is_null_constant(gives),
        rest.ctype(),
        rest.is_null(),
    )
}

/// A chain with one more condition in front, and what is chosen where it holds.
fn lengthened(
    alloc: Global,
    ctype: CType,
    arm: (Operand, Operand),
    rest: Chain,
) -> Result<Chain, Memory>
    ensures { IfOk result (λ r. r ≡ longer ctype arm rest) }
{
    match rest {
        Chain::End(last) => one_choice(alloc, ctype, arm, last),
        Chain::Choices(choices) => one_more_choice(ctype, arm, choices),
    }
}

fn one_choice(
    alloc: Global,
    ctype: CType,
    arm: (Operand, Operand),
    last: Operand,
) -> Result<Chain, Memory>
    ensures { IfOk result (λ r. r ≡ longer ctype arm (chain.End last)) }
{
    let Ok(arms) = with_item(Items::new(alloc), arm) else {
        drop((ctype, last));
        return Err(Memory);
    };
    Ok(Chain::Choices(Choices { ctype, arms, last }))
}

fn one_more_choice(ctype: CType, arm: (Operand, Operand), choices: Choices) -> Result<Chain, Memory>
    ensures { IfOk result (λ r. r ≡ longer ctype arm (chain.Choices choices)) }
{
    let Choices {
        ctype: before,
        arms,
        last,
    } = choices;
    drop(before);
    let Ok(arms) = with_item(arms, arm) else {
        drop((ctype, last));
        return Err(Memory);
    };
    Ok(Chain::Choices(Choices { ctype, arms, last }))
}

/// The conditions of a chain in order, each with what is chosen, at this type.
fn chosen_arms(
    alloc: Global,
    ctype: &CType,
    mut arms: Items<(Operand, Operand)>,
) -> Result<Items<Arm>, Memory>
    ensures { IfOk result (λ list. list ≡ map (arm_at ctype.now) (reverse arms)) }
{
    let mut list = Items::new(alloc);
    while let Some(arm) = arms.pop() {
        let Ok(longer) = with_arm(alloc, ctype, list, arm) else {
            drop(arms);
            return Err(Memory);
        };
        list = longer;
    }
    drop(arms);
    Ok(list)
}

/// One more condition behind others.
fn with_arm(
    alloc: Global,
    ctype: &CType,
    list: Items<Arm>,
    arm: (Operand, Operand),
) -> Result<Items<Arm>, Memory>
    ensures { IfOk result (λ longer. longer ≡ list ++ arm_at ctype.now arm ∷ []) }
{
    let Ok(arm) = arm_of(alloc, ctype, arm.0, arm.1) else {
        drop(list);
        return Err(Memory);
    };
    with_item(list, arm)
}

/// A condition and what is chosen where it holds, as trees.
fn arm_of(alloc: Global, ctype: &CType, condition: Operand, chosen: Operand) -> Result<Arm, Memory>
    ensures { IfOk result (λ arm. arm ≡ arm_at ctype.now (condition, chosen)) }
{
    let Ok(condition) = tree_of(alloc, condition) else {
        drop(chosen);
        return Err(Memory);
    };
    let Ok(chosen) = chosen_as(alloc, ctype, chosen) else {
        drop(condition);
        return Err(Memory);
    };
    Ok(Arm { condition, chosen })
}

/// What is chosen, as a value of the type of the whole; at `void` a value is dropped (C11 6.5.15p5).
fn chosen_as(alloc: Global, ctype: &CType, operand: Operand) -> Result<TExpr, Memory>
    ensures { IfOk result (λ tree. tree ≡ spec.chosen_as ctype.now operand) }
{
    if is_void(ctype) {
        tree_of(alloc, dropping(alloc, operand)?)
    } else {
        tree_at(alloc, ctype, operand)
    }
}
