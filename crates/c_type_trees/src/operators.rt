//! Operators behind their first operand (C11 6.5.5 to 6.5.17).
//! Walks over the operands of each level; the rows stand in c_type_expressions.

ghost use Rattle.std.specs.Prelude.{◌≡◌, [], map};
ghost use Rattle.c_typing.specs.OfTrees as spec;
ghost use Rattle.c_typing.specs.Trees as typing;
ghost use Rattle.c_type_walk.specs.Nests.{Nests};
ghost use Rattle.c_type_walk.specs.Walks.{Walks};
ghost use Rattle.c_type_trees.specs.Nested.{WalksTree};
ghost use Rattle.c_type_trees.specs.Sequences as sequences;

use crate::nested::{Tree, Typed};
use crate::operands::{binary_if_both, truth_if_any};
use crate::sequences::{
    Choice, LeftSide, assigned_by, chosen_by, comma_if_both, first_truth, logical_of, with_dropped,
    with_truth,
};
use crate::walker::Walker;
use c_tree::typed::TExpr;
use c_tree::{Branch, Level, Next};
use c_type_walk::{Around, Found};
use c_typing::Operand;
use std::alloc::Global;
use word_ops::{Boxed, Items, Memory};

impl<F: Fn(Global, &mut Found, &Around<'_>, u64, Tree<'_>) -> Result<Typed, Memory>> Walker<F> {
    /// Operators of one level behind their first operand (C11 6.5.5 to 6.5.14).
    pub fn operators(
        &self,
        found: &mut Found,
        around: &Around<'_>,
        level: Level,
        rest: &[Next],
        first: Option<Boxed<Operand>>,
    ) -> Result<Option<Boxed<Operand>>, Memory>
        requires { Nests WalksTree self.now.more (F.pre self.now.inside) (F.post self.now.inside) }
        ensures { Walks (spec.level_row level first (map typing.next_typing rest.now)) around.now found.old result found.new }
    {
        match level {
            Level::Or => self.logical(found, around, true, rest, first),
            Level::And => self.logical(found, around, false, rest, first),
            _ => self.binaries(found, around, rest, first),
        }
    }

    /// Operators that are read from left to right (C11 6.5.5 to 6.5.12).
    #[inline(never)]
    fn binaries(
        &self,
        found: &mut Found,
        around: &Around<'_>,
        rest: &[Next],
        first: Option<Boxed<Operand>>,
    ) -> Result<Option<Boxed<Operand>>, Memory>
        requires { Nests WalksTree self.now.more (F.pre self.now.inside) (F.post self.now.inside) }
        ensures { Walks (spec.binaries_row (map typing.next_typing rest.now) first) around.now found.old result found.new }
    {
        let mut value = first;
        for next in rest {
            let right = or_drop!(self.expr(found, around, &next.operand), value);
            value = binary_if_both(self.alloc, found, around, next.operator, value, right)?;
        }
        Ok(value)
    }

    /// `||` or `&&` (C11 6.5.14, 6.5.13).
    #[inline(never)]
    fn logical(
        &self,
        found: &mut Found,
        around: &Around<'_>,
        is_or: bool,
        rest: &[Next],
        first: Option<Boxed<Operand>>,
    ) -> Result<Option<Boxed<Operand>>, Memory>
        requires { Nests WalksTree self.now.more (F.pre self.now.inside) (F.post self.now.inside) }
        ensures { Walks (spec.logical_row (sequences.logical_tree is_or) first (map typing.next_typing rest.now)) around.now found.old result found.new }
    {
        match rest.first() {
            Some(next) => {
                let done = first_truth(self.alloc, found, around, next.operator.place, first)?;
                let all = self.truths(found, around, rest, done)?;
                logical_of(self.alloc, is_or, all)
            }
            None => Ok(first),
        }
    }

    /// The operands of `||` or `&&` behind the first, with those before them.
    fn truths(
        &self,
        found: &mut Found,
        around: &Around<'_>,
        rest: &[Next],
        done: Option<Items<TExpr>>,
    ) -> Result<Option<Items<TExpr>>, Memory>
        requires { Nests WalksTree self.now.more (F.pre self.now.inside) (F.post self.now.inside) }
        ensures { Walks (spec.truths_row (map typing.next_typing rest.now) done) around.now found.old result found.new }
    {
        let mut all = done;
        for next in rest {
            let right = or_drop!(self.expr(found, around, &next.operand), all);
            let truth = or_drop!(
                truth_if_any(self.alloc, found, around, next.operator.place, right),
                all
            );
            all = with_truth(self.alloc, all, truth)?;
        }
        Ok(all)
    }

    /// `? :` (C11 6.5.15): the operands are walked from left to right, and the chain is made from its right end.
    #[inline(never)]
    pub fn conditional(
        &self,
        found: &mut Found,
        around: &Around<'_>,
        rest: &[Branch],
        first: Option<Boxed<Operand>>,
    ) -> Result<Option<Boxed<Operand>>, Memory>
        requires { Nests WalksTree self.now.more (F.pre self.now.inside) (F.post self.now.inside) }
        ensures { Walks (sequences.conditional_row (map typing.branch_typing rest.now) first) around.now found.old result found.new }
    {
        let mut choices = Items::new(self.alloc);
        let mut last = first;
        for branch in rest {
            let gives = or_drop!(self.expr(found, around, &branch.gives), choices, last);
            let choice = Choice {
                question: branch.question,
                condition: last,
                gives,
            };
            or_drop!(choices.push(choice), choices);
            last = or_drop!(self.expr(found, around, &branch.operand), choices);
        }
        chosen_by(self.alloc, found, around, choices, last)
    }

    /// Assignments (C11 6.5.16): the operands are walked from left to right, and the chain is made from its right end.
    #[inline(never)]
    pub fn assignment(
        &self,
        found: &mut Found,
        around: &Around<'_>,
        rest: &[Next],
        first: Option<Boxed<Operand>>,
    ) -> Result<Option<Boxed<Operand>>, Memory>
        requires { Nests WalksTree self.now.more (F.pre self.now.inside) (F.post self.now.inside) }
        ensures { Walks (sequences.assignment_row (map typing.next_typing rest.now) first) around.now found.old result found.new }
    {
        let mut left = Items::new(self.alloc);
        let mut last = first;
        for next in rest {
            let side = LeftSide {
                operand: last,
                operator: next.operator,
            };
            or_drop!(left.push(side), left);
            last = or_drop!(self.expr(found, around, &next.operand), left);
        }
        assigned_by(self.alloc, found, around, left, last)
    }

    /// `,` (C11 6.5.17): the values of all operands but the last are dropped.
    #[inline(never)]
    pub fn comma(
        &self,
        found: &mut Found,
        around: &Around<'_>,
        rest: &[Next],
        first: Option<Boxed<Operand>>,
    ) -> Result<Option<Boxed<Operand>>, Memory>
        requires { Nests WalksTree self.now.more (F.pre self.now.inside) (F.post self.now.inside) }
        ensures { Walks (spec.commas_row (map typing.next_typing rest.now) [] first) around.now found.old result found.new }
    {
        let mut dropped = Some(Items::new(self.alloc));
        let mut last = first;
        for next in rest {
            dropped = with_dropped(self.alloc, dropped, last)?;
            last = or_drop!(self.expr(found, around, &next.operand), dropped);
        }
        comma_if_both(self.alloc, dropped, last)
    }
}
