//! An expression, by what stands first in it (C11 6.5).
//! Walks over expressions, from the operand with which they begin; the rows stand in c_type_expressions.

ghost use Rattle.std.specs.Prelude.{◌≡◌};
ghost use Rattle.c_tree.specs.declared.expression.Expr.{out-Expr};
ghost use Rattle.c_typing.specs.Trees as typing;
ghost use Rattle.c_type_walk.specs.Nests.{Nests};
ghost use Rattle.c_type_walk.specs.Walks.{Walks};
ghost use Rattle.c_type_trees.specs.Nested.{WalksTree};
ghost use Rattle.c_type_trees.specs.Operands as operands;

use crate::names::first_operand;
use crate::nested::{Tree, Typed};
use crate::operands::{character, integer, named, strings};
use crate::walker::Walker;
use c_tree::Expr;
use c_type_walk::{Around, Found};
use c_typing::Operand;
use std::alloc::Global;
use word_ops::{Boxed, Items, Memory};

impl<F: Fn(Global, &mut Found, &Around<'_>, u64, Tree<'_>) -> Result<Typed, Memory>> Walker<F> {
    /// What typing makes of an expression. The operands with which it begins, each inside the one before it, are walked one after the
    /// other from the innermost on, so that nothing is kept on the stack for the brackets that are open.
    pub fn expression(
        &self,
        found: &mut Found,
        around: &Around<'_>,
        tree: &Expr,
    ) -> Result<Option<Boxed<Operand>>, Memory>
        requires { Nests WalksTree self.now.more (F.pre self.now.inside) (F.post self.now.inside) }
        ensures { Walks (typing.expr_typing tree.now).typed around.now found.old result found.new }
    {
        let mut begun = Items::new(self.alloc);
        let mut innermost = tree;
        while let Some(operand) = first_operand(innermost) {
            or_drop!(begun.push(innermost), begun);
            innermost = operand;
        }
        let value = or_drop!(self.other(found, around, innermost), begun);
        self.behind_all(found, around, begun, value)
    }

    /// What stands behind the operands with which expressions begin, of which the last is the innermost.
    fn behind_all(
        &self,
        found: &mut Found,
        around: &Around<'_>,
        mut begun: Items<&Expr>,
        first: Option<Boxed<Operand>>,
    ) -> Result<Option<Boxed<Operand>>, Memory>
        requires { Nests WalksTree self.now.more (F.pre self.now.inside) (F.post self.now.inside) }
        ensures { Walks (operands.behind_all begun.entry first) around.now found.old result found.new }
    {
        let mut value = first;
        while let Some(tree) = begun.pop() {
            value = or_drop!(self.behind(found, around, tree, value), begun);
        }
        drop(begun);
        Ok(value)
    }

    /// An expression that begins with no operand, or with one that may be the name of a function.
    fn other(
        &self,
        found: &mut Found,
        around: &Around<'_>,
        tree: &Expr,
    ) -> Result<Option<Boxed<Operand>>, Memory>
        requires { Nests WalksTree self.now.more (F.pre self.now.inside) (F.post self.now.inside) }
        ensures { Walks (operands.other_row (out-Expr tree.now)) around.now found.old result found.new }
    {
        match tree {
            Expr::Name(name) => named(self.alloc, found, around, name),
            Expr::Number(value, kind, _) => integer(self.alloc, *value, *kind),
            Expr::Char(value, _) => character(self.alloc, *value),
            Expr::Strings(all) => strings(self.alloc, found, around, all.as_slice()),
            Expr::Postfix(operand, all) => {
                self.postfix(found, around, operand.get(), all.as_slice())
            }
            Expr::SizeofType(place, _, tree, _) => self.sizeof(found, around, *place, tree.get()),
            Expr::Prefixed(run, operand) => {
                self.prefixed(found, around, run.as_slice(), operand.get())
            }
            Expr::Paren(_, _, _) => Ok(None),
            Expr::Binary(_, _, _) => Ok(None),
            Expr::Conditional(_, _) => Ok(None),
            Expr::Assign(_, _) => Ok(None),
            Expr::Comma(_, _) => Ok(None),
        }
    }

    /// What stands behind the operand with which an expression begins.
    fn behind(
        &self,
        found: &mut Found,
        around: &Around<'_>,
        tree: &Expr,
        first: Option<Boxed<Operand>>,
    ) -> Result<Option<Boxed<Operand>>, Memory>
        requires { Nests WalksTree self.now.more (F.pre self.now.inside) (F.post self.now.inside) }
        ensures { Walks (operands.behind_row (out-Expr tree.now) first) around.now found.old result found.new }
    {
        match tree {
            Expr::Binary(level, _, rest) => {
                self.operators(found, around, *level, rest.as_slice(), first)
            }
            Expr::Conditional(_, rest) => self.conditional(found, around, rest.as_slice(), first),
            Expr::Assign(_, rest) => self.assignment(found, around, rest.as_slice(), first),
            Expr::Comma(_, rest) => self.comma(found, around, rest.as_slice(), first),
            Expr::Name(_) => Ok(first),
            Expr::Number(_, _, _) => Ok(first),
            Expr::Char(_, _) => Ok(first),
            Expr::Strings(_) => Ok(first),
            Expr::Paren(_, _, _) => Ok(first),
            Expr::Postfix(_, _) => Ok(first),
            Expr::SizeofType(_, _, _, _) => Ok(first),
            Expr::Prefixed(_, _) => Ok(first),
        }
    }
}
