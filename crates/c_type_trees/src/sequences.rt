//! Lists of operators, from what the walks of their operands gave.
//! No walk: each hands a list to the rows of c_type_expressions, where it has to be from its right end.

ghost use Rattle.std.specs.Prelude.{◌≡◌, ◌++◌, ◌∷◌, [], IfOk, map};
ghost use Rattle.std.specs.Option.{option_map};
ghost use Rattle.c_typing.specs.OfTrees as spec;
ghost use Rattle.c_typing.specs.Scopes as scopes;
ghost use Rattle.c_type_walk.specs.Walks.{Walks};
ghost use Rattle.c_type_expressions.specs.Assignments.{assigned_of};
ghost use Rattle.c_type_expressions.specs.Chains.{chain_of};
ghost use Rattle.c_type_expressions.specs.Prefixes.{prefixing};
ghost use Rattle.c_type_trees.specs.Lists as lists;
ghost use Rattle.c_type_trees.specs.Sequences as sequences;

use crate::held::{held, released};
use crate::operands::{prefix_if_both, truth_if_any};
use c_tree::typed::TExpr;
use c_tree::{Mark, Pos};
use c_type_expressions::{
    Argument, Assigned, Chain, Prefixing, all_of, any_of, assign_row, assigned_end, assigned_value,
    chain_end, chain_value, comma_of, conditional_row,
};
use c_type_rules::{dropping, tree_of};
use c_type_walk::{Around, Found};
use c_typing::Operand;
use std::alloc::Global;
use word_ops::{Boxed, Items, Memory};

/// What stands to the left of `:` in a chain of `? :`.
#[derive(Drop)]
pub(crate) struct Choice {
    /// the place of `?`
    pub question: Pos,
    /// the condition, where no fault stands in it
    pub condition: Option<Boxed<Operand>>,
    /// what is given where it holds
    pub gives: Option<Boxed<Operand>>,
}

/// An assignment operator and what stands to its left.
#[derive(Drop)]
pub(crate) struct LeftSide {
    /// the left side, where no fault stands in it
    pub operand: Option<Boxed<Operand>>,
    /// the operator
    pub operator: Mark,
}

/// One more item. What it is made of does not matter here, so that the proof of a list that is let go of is short.
fn pushed<A: Drop>(mut all: Vec<A>, one: A) -> Result<Vec<A>, Memory>
    ensures { IfOk result (λ r. r.items ≡ all.items ++ one ∷ []) }
{
    or_drop!(all.push(one), all);
    Ok(all)
}

/// One more argument of a call, with the place where it begins (C11 6.5.2.2).
#[inline(never)]
pub(crate) fn with_argument(
    all: Vec<Argument>,
    first: Pos,
    value: Option<Boxed<Operand>>,
) -> Result<Vec<Argument>, Memory>
    ensures { IfOk result (λ r. r.items ≡ all.items ++ (first, value) ∷ []) }
{
    pushed(all, (first, released(value)))
}

/// One more item, where there are items before it and it is one.
pub(crate) fn joined<A: Drop>(
    all: Option<Items<A>>,
    one: Option<A>,
) -> Result<Option<Items<A>>, Memory>
    ensures { IfOk result (λ r. r ≡ lists.one_more all one) }
{
    let mut all = some_or_drop!(all, one);
    let one = some_or_drop!(one, all);
    or_drop!(all.push(one), all);
    Ok(Some(all))
}

/// Prefixes before an operand: the one that stands next to it comes first (C11 6.5.3).
pub(crate) fn prefixed_by(
    alloc: Global,
    found: &mut Found,
    around: &Around<'_>,
    mut run: Items<Option<Prefixing>>,
    operand: Option<Boxed<Operand>>,
) -> Result<Option<Boxed<Operand>>, Memory>
    ensures { Walks (spec.prefixes_row (map (option_map prefixing) run) operand) around.now found.old result found.new }
{
    let mut value = operand;
    while let Some(prefix) = run.pop() {
        value = or_drop!(prefix_if_both(alloc, found, around, prefix, value), run);
    }
    drop(run);
    Ok(value)
}

/// The same, where the prefixes are there.
#[inline(never)]
pub(crate) fn prefixed_if_any(
    alloc: Global,
    found: &mut Found,
    around: &Around<'_>,
    run: Option<Items<Option<Prefixing>>>,
    operand: Option<Boxed<Operand>>,
) -> Result<Option<Boxed<Operand>>, Memory>
    ensures { Walks (scopes.asked (option_map (λ all. map (option_map prefixing) all) run) (λ all. spec.prefixes_row all operand)) around.now found.old result found.new }
{
    let run = some_or_drop!(run, operand);
    prefixed_by(alloc, found, around, run, operand)
}

/// The first operand of `&&` or `||`, as the list of those that were read (C11 6.5.13p2, 6.5.14p2).
#[inline(never)]
pub(crate) fn first_truth(
    alloc: Global,
    found: &mut Found,
    around: &Around<'_>,
    place: Pos,
    operand: Option<Boxed<Operand>>,
) -> Result<Option<Items<TExpr>>, Memory>
    ensures { Walks (sequences.first_truth place operand) around.now found.old result found.new }
{
    let truth = truth_if_any(alloc, found, around, place, operand)?;
    Ok(with_truth(alloc, Some(Items::new(alloc)), truth)?)
}

/// One more operand of `&&` or `||`, where no fault stands in those before it.
#[inline(never)]
pub(crate) fn with_truth(
    alloc: Global,
    all: Option<Items<TExpr>>,
    truth: Option<Boxed<Operand>>,
) -> Result<Option<Items<TExpr>>, Memory>
    ensures { IfOk result (λ r. r ≡ sequences.with_truth all truth) }
{
    let mut all = some_or_drop!(all, truth);
    let truth = some_or_drop!(truth, all);
    let tree = or_drop!(tree_of(alloc, truth.into_inner()), all);
    or_drop!(all.push(tree), all);
    Ok(Some(all))
}

/// `&&` or `||` of operands, where no fault stands in them.
#[inline(never)]
pub(crate) fn logical_of(
    alloc: Global,
    is_or: bool,
    all: Option<Items<TExpr>>,
) -> Result<Option<Boxed<Operand>>, Memory>
    ensures { IfOk result (λ r. r ≡ option_map (sequences.logical_of is_or) all) }
{
    let Some(all) = all else {
        return Ok(None);
    };
    if is_or {
        held(alloc, Some(any_of(alloc, all)))
    } else {
        held(alloc, Some(all_of(alloc, all)))
    }
}

/// The operands of a comma whose value is dropped, and one more, where no fault stands in them (C11 6.5.17p2).
#[inline(never)]
pub(crate) fn with_dropped(
    alloc: Global,
    all: Option<Items<TExpr>>,
    operand: Option<Boxed<Operand>>,
) -> Result<Option<Items<TExpr>>, Memory>
    ensures { IfOk result (λ r. r ≡ sequences.with_dropped all operand) }
{
    let mut all = some_or_drop!(all, operand);
    let operand = some_or_drop!(operand, all);
    let operand = or_drop!(dropping(alloc, operand.into_inner()), all);
    let tree = or_drop!(tree_of(alloc, operand), all);
    or_drop!(all.push(tree), all);
    Ok(Some(all))
}

/// `,`: the operands that are dropped, and the last (C11 6.5.17p2).
#[inline(never)]
pub(crate) fn comma_if_both(
    alloc: Global,
    dropped: Option<Items<TExpr>>,
    last: Option<Boxed<Operand>>,
) -> Result<Option<Boxed<Operand>>, Memory>
    ensures { IfOk result (λ r. r ≡ sequences.comma_if_both dropped last) }
{
    let dropped = some_or_drop!(dropped, last);
    let last = some_or_drop!(last, dropped);
    let value = comma_of(alloc, dropped, last.into_inner())?;
    held(alloc, Some(value))
}

/// A chain of `? :`, made from its right end (C11 6.5.15p1).
#[inline(never)]
pub(crate) fn chosen_by(
    alloc: Global,
    found: &mut Found,
    around: &Around<'_>,
    mut choices: Items<Choice>,
    last: Option<Boxed<Operand>>,
) -> Result<Option<Boxed<Operand>>, Memory>
    ensures { Walks (sequences.choices_row choices last) around.now found.old result found.new }
{
    let mut chain = or_drop!(last_of_chain(alloc, last), choices);
    while let Some(choice) = choices.pop() {
        let Choice {
            question,
            condition,
            gives,
        } = choice;
        let (condition, gives) = (released(condition), released(gives));
        chain = or_drop!(
            conditional_row(alloc, found, around, question, condition, gives, chain),
            choices
        );
    }
    drop(choices);
    value_of_chain(alloc, chain)
}

/// The right end of a chain of `? :`, where no fault stands in it.
fn last_of_chain(alloc: Global, last: Option<Boxed<Operand>>) -> Result<Option<Chain>, Memory>
    ensures { IfOk result (λ r. option_map chain_of r ≡ option_map spec.chain_end last) }
{
    match last {
        Some(last) => Ok(Some(chain_end(alloc, last.into_inner())?)),
        None => Ok(None),
    }
}

/// What a chain of `? :` is as a whole.
fn value_of_chain(alloc: Global, chain: Option<Chain>) -> Result<Option<Boxed<Operand>>, Memory>
    ensures { IfOk result (λ o. o ≡ option_map (λ c. c.whole) (option_map chain_of chain)) }
{
    match chain {
        Some(chain) => {
            let value = chain_value(alloc, chain)?;
            held(alloc, Some(value))
        }
        None => Ok(None),
    }
}

/// A chain of assignments, made from its right end (C11 6.5.16p1).
#[inline(never)]
pub(crate) fn assigned_by(
    alloc: Global,
    found: &mut Found,
    around: &Around<'_>,
    mut left: Items<LeftSide>,
    last: Option<Boxed<Operand>>,
) -> Result<Option<Boxed<Operand>>, Memory>
    ensures { Walks (sequences.left_sides_row left last) around.now found.old result found.new }
{
    let mut assigned = or_drop!(last_assigned(alloc, last), left);
    while let Some(side) = left.pop() {
        let LeftSide { operand, operator } = side;
        assigned = or_drop!(
            assign_row(alloc, found, around, operator, released(operand), assigned),
            left
        );
    }
    drop(left);
    value_of_assigned(alloc, assigned)
}

/// The right end of a chain of assignments, where no fault stands in it.
fn last_assigned(alloc: Global, last: Option<Boxed<Operand>>) -> Result<Option<Assigned>, Memory>
    ensures { IfOk result (λ r. option_map assigned_of r ≡ option_map spec.assigned_end last) }
{
    match last {
        Some(last) => Ok(Some(assigned_end(alloc, last.into_inner())?)),
        None => Ok(None),
    }
}

/// What a chain of assignments is as a whole.
fn value_of_assigned(
    alloc: Global,
    assigned: Option<Assigned>,
) -> Result<Option<Boxed<Operand>>, Memory>
    ensures { IfOk result (λ o. o ≡ option_map (λ a. a.whole) (option_map assigned_of assigned)) }
{
    match assigned {
        Some(assigned) => {
            let value = assigned_value(alloc, assigned)?;
            held(alloc, Some(value))
        }
        None => Ok(None),
    }
}
