//! Loops (C11 6.8.5).
//! Walks over conditions and bodies; the rows stand in `whole`.

ghost use Rattle.std.specs.Option.{option_copied, option_map};
ghost use Rattle.c_typing.specs.Declarations as declarations;
ghost use Rattle.c_typing.specs.OfStatements as spec;
ghost use Rattle.c_typing.specs.Scopes as scopes;
ghost use Rattle.c_typing.specs.Statements.{stmt_typing};
ghost use Rattle.c_typing.specs.Trees.{expr_typing};
ghost use Rattle.c_type_statements.specs.Statements as parts;
ghost use Rattle.c_type_walk.specs.Nests.{Nests};
ghost use Rattle.c_type_walk.specs.Walks.{Walks};
ghost use Rattle.c_type_statements.specs.Nested.{WalksStmt};

use crate::blocks::{begin_objects, count_declared, end_objects};
use crate::branches::with_one;
use crate::values::{condition_if_any, condition_row, dropped_if_any};
use crate::walker::Walker;
use crate::whole::{block_of, do_of, for_of, headed, while_of};
use c_tree::typed::TStmt;
use c_tree::{Declaration, Expr, ForControl, ForHead, Pos, Stmt};
use c_type_declarations::declaration_row;
use c_type_walk::{Around, Found};
use std::alloc::Global;
use word_ops::{Items, Memory};

impl<F: Fn(Global, &mut Found, &Around<'_>, u64, &Stmt) -> Result<Option<TStmt>, Memory>> Walker<
    F,
> {
    /// The body of a loop, in a scope of its own.
    fn loop_body(
        &self,
        found: &mut Found,
        around: &Around<'_>,
        tree: &Stmt,
    ) -> Result<Option<TStmt>, Memory>
        requires { Nests WalksStmt self.now.more (F.pre self.now.inside) (F.post self.now.inside) }
        ensures { Walks (scopes.scoped (spec.in_loop (stmt_typing tree.now))) around.now found.old result found.new }
    {
        let within = Around {
            may_break: true,
            may_continue: true,
            ..*around
        };
        self.scoped_row(found, &within, tree)
    }

    /// `while` (C11 6.8.5.1).
    pub fn while_row(
        &self,
        found: &mut Found,
        around: &Around<'_>,
        at: Pos,
        condition: &Expr,
        body: &Stmt,
    ) -> Result<Option<TStmt>, Memory>
        requires { Nests WalksStmt self.now.more (F.pre self.now.inside) (F.post self.now.inside) }
        ensures { Walks (spec.while_row at (expr_typing condition.now) (stmt_typing body.now)) around.now found.old result found.new }
    {
        let within = around.in_scope(found);
        let condition = condition_row(self.alloc, found, &within, at, condition)?;
        let Ok(body) = self.loop_body(found, &within, body) else {
            drop(condition);
            return Err(Memory);
        };
        found.close(within.names_from, within.tags_from);
        while_of(self.alloc, condition, body)
    }

    /// `do` (C11 6.8.5.2).
    pub fn do_row(
        &self,
        found: &mut Found,
        around: &Around<'_>,
        at: Pos,
        body: &Stmt,
        condition: &Expr,
    ) -> Result<Option<TStmt>, Memory>
        requires { Nests WalksStmt self.now.more (F.pre self.now.inside) (F.post self.now.inside) }
        ensures { Walks (spec.do_row at (stmt_typing body.now) (expr_typing condition.now)) around.now found.old result found.new }
    {
        let within = around.in_scope(found);
        let body = self.loop_body(found, &within, body)?;
        let Ok(condition) = condition_row(self.alloc, found, &within, at, condition) else {
            drop(body);
            return Err(Memory);
        };
        found.close(within.names_from, within.tags_from);
        do_of(self.alloc, body, condition)
    }

    /// `for` (C11 6.8.5.3).
    pub fn for_row(
        &self,
        found: &mut Found,
        around: &Around<'_>,
        at: Pos,
        control: &ForControl,
        body: &Stmt,
    ) -> Result<Option<TStmt>, Memory>
        requires { Nests WalksStmt self.now.more (F.pre self.now.inside) (F.post self.now.inside) }
        ensures { Walks (spec.for_row at (spec.controlling_of control.now) (stmt_typing body.now) (spec.heading_of control.now.head)) around.now found.old result found.new }
    {
        match &control.head {
            ForHead::Expression(first, _) => {
                self.for_first(found, around, at, first.as_ref(), control, body)
            }
            ForHead::Declaration(tree) => self.for_declares(found, around, at, tree, control, body),
        }
    }

    /// A `for` whose head is an expression or nothing, which is done first.
    fn for_first(
        &self,
        found: &mut Found,
        around: &Around<'_>,
        at: Pos,
        first: Option<&Expr>,
        control: &ForControl,
        body: &Stmt,
    ) -> Result<Option<TStmt>, Memory>
        requires { Nests WalksStmt self.now.more (F.pre self.now.inside) (F.post self.now.inside) }
        ensures { Walks (spec.for_row at (spec.controlling_of control.now) (stmt_typing body.now) (spec.First (option_map expr_typing (option_copied first.entry)))) around.now found.old result found.new }
    {
        let within = around.in_scope(found);
        let first = dropped_if_any(self.alloc, found, &within, first)?;
        let Ok(made) = self.loop_row(found, &within, at, control, body) else {
            drop(first);
            return Err(Memory);
        };
        let made = headed(self.alloc, found, first, made)?;
        found.close(within.names_from, within.tags_from);
        Ok(made)
    }

    /// A `for` whose head declares: that lies around the loop (C11 6.8.5.3p1).
    fn for_declares(
        &self,
        found: &mut Found,
        around: &Around<'_>,
        at: Pos,
        head: &Declaration,
        control: &ForControl,
        body: &Stmt,
    ) -> Result<Option<TStmt>, Memory>
        requires { Nests WalksStmt self.now.more (F.pre self.now.inside) (F.post self.now.inside) }
        ensures { Walks (spec.for_row at (spec.controlling_of control.now) (stmt_typing body.now) (spec.Declares (declarations.declared_of head.now))) around.now found.old result found.new }
    {
        let count = count_declared(self.alloc, found, head)?;
        let scope = around.in_scope(found);
        let (outside, within) = begin_objects(self.alloc, found, &scope, count)?;
        let Ok(made) = self.declared_loop(found, &within, at, head, control, body) else {
            drop(outside);
            return Err(Memory);
        };
        let Ok(objects) = end_objects(self.alloc, found, outside) else {
            drop(made);
            return Err(Memory);
        };
        found.close(scope.names_from, scope.tags_from);
        Ok(block_of(objects, made))
    }

    /// What the head of a `for` declares, and then the loop.
    fn declared_loop(
        &self,
        found: &mut Found,
        around: &Around<'_>,
        at: Pos,
        head: &Declaration,
        control: &ForControl,
        body: &Stmt,
    ) -> Result<Option<Items<TStmt>>, Memory>
        requires { Nests WalksStmt self.now.more (F.pre self.now.inside) (F.post self.now.inside) }
        ensures { Walks (parts.then_loop (declarations.declaration_row (declarations.declared_of head.now)) (spec.loop_row at (spec.controlling_of control.now) (stmt_typing body.now))) around.now found.old result found.new }
    {
        let made = declaration_row(self.alloc, found, around, head)?;
        let Ok(repeated) = self.loop_row(found, around, at, control, body) else {
            drop(made);
            return Err(Memory);
        };
        with_one(made, repeated)
    }

    /// What is repeated of a `for`.
    fn loop_row(
        &self,
        found: &mut Found,
        around: &Around<'_>,
        at: Pos,
        control: &ForControl,
        body: &Stmt,
    ) -> Result<Option<TStmt>, Memory>
        requires { Nests WalksStmt self.now.more (F.pre self.now.inside) (F.post self.now.inside) }
        ensures { Walks (spec.loop_row at (spec.controlling_of control.now) (stmt_typing body.now)) around.now found.old result found.new }
    {
        let condition = condition_if_any(
            self.alloc,
            found,
            around,
            at,
            control.condition.as_ref(),
        )?;
        let Ok(step) = dropped_if_any(self.alloc, found, around, control.step.as_ref()) else {
            drop(condition);
            return Err(Memory);
        };
        let Ok(body) = self.loop_body(found, around, body) else {
            drop((condition, step));
            return Err(Memory);
        };
        for_of(self.alloc, condition, step, body)
    }
}
