//! Suffixes and the operands before them (C11 6.5.2).
//! Walks over suffixes and arguments; the rows stand in c_type_expressions.

ghost use Rattle.std.specs.Prelude.{◌≡◌, map};
ghost use Rattle.c_typing.specs.OfTrees as spec;
ghost use Rattle.c_typing.specs.Trees as typing;
ghost use Rattle.c_type_walk.specs.Nests.{Nests};
ghost use Rattle.c_type_walk.specs.Walks.{Walks};
ghost use Rattle.c_type_expressions.specs.Told.{WalksAs};
ghost use Rattle.c_type_trees.specs.Calls as calls;
ghost use Rattle.c_type_trees.specs.Nested.{WalksTree};

use crate::names::{call_place, called, first_token};
use crate::nested::{Tree, Typed};
use crate::operands::{
    arrow_if_any, bad_call_if_any, call_if_any, increment_if_any, index_if_both, member_if_any,
};
use crate::sequences::with_argument;
use crate::walker::Walker;
use c_tree::{Expr, Identifier, Next, Pos, Punct, Suffix};
use c_type_expressions::Argument;
use c_type_walk::{Around, Found};
use c_typing::Operand;
use std::alloc::Global;
use word_ops::{Boxed, Memory};

impl<F: Fn(Global, &mut Found, &Around<'_>, u64, Tree<'_>) -> Result<Typed, Memory>> Walker<F> {
    /// An operand and the suffixes behind it; a name directly before the `(` of a call is that of a function (C11 6.5.2.2p1).
    #[inline(never)]
    pub fn postfix(
        &self,
        found: &mut Found,
        around: &Around<'_>,
        operand: &Expr,
        all: &[Suffix],
    ) -> Result<Option<Boxed<Operand>>, Memory>
        requires { Nests WalksTree self.now.more (F.pre self.now.inside) (F.post self.now.inside) }
        ensures { Walks (spec.postfix_row (typing.expr_typing operand.now) (typing.expr_typing operand.now).callee (map typing.suffix_typing all.now)) around.now found.old result found.new }
    {
        match called(operand, all) {
            Some(function) => self.call_first(found, around, function, all),
            None => {
                let value = self.expr(found, around, operand)?;
                self.suffixes(found, around, all, value)
            }
        }
    }

    /// Suffixes of which the first is the call of a name (C11 6.5.2.2).
    #[inline(never)]
    fn call_first(
        &self,
        found: &mut Found,
        around: &Around<'_>,
        function: &Identifier,
        all: &[Suffix],
    ) -> Result<Option<Boxed<Operand>>, Memory>
        requires { Nests WalksTree self.now.more (F.pre self.now.inside) (F.post self.now.inside) }
        ensures { Walks (calls.call_first function.now (map typing.suffix_typing all.now)) around.now found.old result found.new }
    {
        match all.split_first() {
            Some((first, rest)) => {
                let given = self.arguments(found, around, first)?;
                let place = call_place(first);
                let value = call_if_any(self.alloc, found, around, function, place, given)?;
                self.suffixes(found, around, rest, value)
            }
            None => Ok(None),
        }
    }

    /// The arguments of a call, from left to right (C11 6.5.2.2p4); another suffix has none.
    fn arguments(
        &self,
        found: &mut Found,
        around: &Around<'_>,
        tree: &Suffix,
    ) -> Result<Option<Vec<Argument>>, Memory>
        requires { Nests WalksTree self.now.more (F.pre self.now.inside) (F.post self.now.inside) }
        ensures { WalksAs (λ v. v.items) (calls.arguments_of (typing.suffix_typing tree.now)) around.now found.old result found.new }
    {
        match tree {
            Suffix::Call(_, _) => Ok(Some(Vec::new(self.alloc))),
            Suffix::CallWith(_, first, rest, _) => {
                self.all_arguments(found, around, first, rest.as_slice())
            }
            Suffix::Index(_, _, _) => Ok(None),
            Suffix::Member(_, _) => Ok(None),
            Suffix::Arrow(_, _) => Ok(None),
            Suffix::Increment(_) => Ok(None),
            Suffix::Decrement(_) => Ok(None),
        }
    }

    /// A first argument and those behind it.
    fn all_arguments(
        &self,
        found: &mut Found,
        around: &Around<'_>,
        first: &Expr,
        rest: &[Next],
    ) -> Result<Option<Vec<Argument>>, Memory>
        requires { Nests WalksTree self.now.more (F.pre self.now.inside) (F.post self.now.inside) }
        ensures { WalksAs (λ v. v.items) (calls.all_arguments first.now rest.now) around.now found.old result found.new }
    {
        let value = self.expr(found, around, first)?;
        let all = with_argument(Vec::new(self.alloc), first_token(first), value)?;
        self.more_arguments(found, around, rest, all)
    }

    /// Arguments behind those that were walked.
    fn more_arguments(
        &self,
        found: &mut Found,
        around: &Around<'_>,
        rest: &[Next],
        before: Vec<Argument>,
    ) -> Result<Option<Vec<Argument>>, Memory>
        requires { Nests WalksTree self.now.more (F.pre self.now.inside) (F.post self.now.inside) }
        ensures { WalksAs (λ v. v.items) (calls.more_arguments before.items rest.now) around.now found.old result found.new }
    {
        let mut all = before;
        for next in rest {
            let value = or_drop!(self.expr(found, around, &next.operand), all);
            all = with_argument(all, first_token(&next.operand), value)?;
        }
        Ok(Some(all))
    }

    /// Suffixes behind an operand, from left to right.
    #[inline(never)]
    fn suffixes(
        &self,
        found: &mut Found,
        around: &Around<'_>,
        all: &[Suffix],
        operand: Option<Boxed<Operand>>,
    ) -> Result<Option<Boxed<Operand>>, Memory>
        requires { Nests WalksTree self.now.more (F.pre self.now.inside) (F.post self.now.inside) }
        ensures { Walks (spec.suffixes_row (map typing.suffix_typing all.now) operand) around.now found.old result found.new }
    {
        let mut value = operand;
        for one in all {
            value = self.suffix(found, around, one, value)?;
        }
        Ok(value)
    }

    /// A suffix behind an operand.
    fn suffix(
        &self,
        found: &mut Found,
        around: &Around<'_>,
        tree: &Suffix,
        operand: Option<Boxed<Operand>>,
    ) -> Result<Option<Boxed<Operand>>, Memory>
        requires { Nests WalksTree self.now.more (F.pre self.now.inside) (F.post self.now.inside) }
        ensures { Walks (spec.suffix_row (typing.suffix_typing tree.now) operand) around.now found.old result found.new }
    {
        let alloc = self.alloc;
        match tree {
            Suffix::Index(place, inner, _) => self.indexed(found, around, *place, inner, operand),
            Suffix::Call(place, _) => bad_call_if_any(found, around, *place, operand),
            Suffix::CallWith(place, first, rest, _) => {
                self.called_value(found, around, *place, first, rest.as_slice(), operand)
            }
            Suffix::Member(place, name) => {
                member_if_any(alloc, found, around, name, *place, operand)
            }
            Suffix::Arrow(place, name) => arrow_if_any(alloc, found, around, name, *place, operand),
            Suffix::Increment(place) => {
                increment_if_any(alloc, found, around, Punct::Increment, *place, operand)
            }
            Suffix::Decrement(place) => {
                increment_if_any(alloc, found, around, Punct::Decrement, *place, operand)
            }
        }
    }

    /// `a[i]` (C11 6.5.2.1).
    fn indexed(
        &self,
        found: &mut Found,
        around: &Around<'_>,
        place: Pos,
        inner: &Expr,
        operand: Option<Boxed<Operand>>,
    ) -> Result<Option<Boxed<Operand>>, Memory>
        requires { Nests WalksTree self.now.more (F.pre self.now.inside) (F.post self.now.inside) }
        ensures { Walks (calls.indexed place (typing.expr_typing inner.now) operand) around.now found.old result found.new }
    {
        let index = or_drop!(self.expr(found, around, inner), operand);
        index_if_both(self.alloc, found, around, place, operand, index)
    }

    /// A call, with arguments, of what is not the name of a function (C11 6.5.2.2p1).
    fn called_value(
        &self,
        found: &mut Found,
        around: &Around<'_>,
        place: Pos,
        first: &Expr,
        rest: &[Next],
        operand: Option<Boxed<Operand>>,
    ) -> Result<Option<Boxed<Operand>>, Memory>
        requires { Nests WalksTree self.now.more (F.pre self.now.inside) (F.post self.now.inside) }
        ensures { Walks (calls.called_value place first.now rest.now operand) around.now found.old result found.new }
    {
        let arguments = or_drop!(self.all_arguments(found, around, first, rest), operand);
        drop(arguments);
        bad_call_if_any(found, around, place, operand)
    }
}
