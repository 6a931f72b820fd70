//! `if` with each `else` (C11 6.8.4.1).
//! Walks over conditions and bodies in turn; the rows stand in `branches` and `whole`.

ghost use Rattle.std.specs.Prelude.{map};
ghost use Rattle.c_typing.specs.OfStatements as spec;
ghost use Rattle.c_typing.specs.Statements.{stmt_typing, else_typing};
ghost use Rattle.c_typing.specs.Trees.{expr_typing};
ghost use Rattle.c_type_statements.specs.Statements as parts;
ghost use Rattle.c_type_walk.specs.Nests.{Nests};
ghost use Rattle.c_type_walk.specs.Walks.{Walks};
ghost use Rattle.c_type_statements.specs.Nested.{WalksStmt};

use crate::blocks::empty;
use crate::branches::{Opened, both_branches, first_branch, if_of, with_one};
use crate::values::condition_row;
use crate::walker::Walker;
use c_tree::typed::{Branch, TStmt};
use c_tree::{Else, Expr, Pos, Stmt};
use c_type_walk::{Around, Found};
use std::alloc::Global;
use word_ops::{Items, Memory};

impl<F: Fn(Global, &mut Found, &Around<'_>, u64, &Stmt) -> Result<Option<TStmt>, Memory>> Walker<
    F,
> {
    /// `if` with each `else` (C11 6.8.4.1).
    pub fn if_row(
        &self,
        found: &mut Found,
        around: &Around<'_>,
        at: Pos,
        condition: &Expr,
        body: &Stmt,
        others: &[Else],
    ) -> Result<Option<TStmt>, Memory>
        requires { Nests WalksStmt self.now.more (F.pre self.now.inside) (F.post self.now.inside) }
        ensures { Walks (spec.if_row at (expr_typing condition.now) (stmt_typing body.now) (map else_typing others.now)) around.now found.old result found.new }
    {
        let within = around.in_scope(found);
        let first = self.branch_row(found, &within, at, condition, body)?;
        let first = first_branch(self.alloc, first)?;
        let Ok(others) = self.others_row(found, &within, others) else {
            drop(first);
            return Err(Memory);
        };
        found.close(within.names_from, within.tags_from);
        if_of(self.alloc, first, others)
    }

    /// The branches behind the first one, and what is done where no condition holds. Each `else` stands in the scope of the
    /// `if` before it, so the scopes end together.
    fn others_row(
        &self,
        found: &mut Found,
        around: &Around<'_>,
        others: &[Else],
    ) -> Result<Option<(Items<Branch>, TStmt)>, Memory>
        requires { Nests WalksStmt self.now.more (F.pre self.now.inside) (F.post self.now.inside) }
        ensures { Walks (spec.others_row (map else_typing others.now)) around.now found.old result found.new }
    {
        let mut within = *around;
        let mut opened = Opened::new();
        let mut branches = Some(Items::new(self.alloc));
        for one in others {
            let Some(head) = &one.head else {
                let Ok(last) = self.scoped_row(found, &within, &one.body) else {
                    drop(branches);
                    return Err(Memory);
                };
                opened.close(found);
                return Ok(branches.zip(last));
            };
            within = within.in_scope(found);
            opened.open(&within);
            let condition = &head.condition.value;
            let Ok(branch) = self.branch_row(found, &within, head.word, condition, &one.body) else {
                drop(branches);
                return Err(Memory);
            };
            branches = with_one(branches, branch)?;
        }
        let last = empty(self.alloc, found, Items::new(self.alloc));
        opened.close(found);
        Ok(branches.zip(Some(last)))
    }

    /// A condition and what is done where it holds; the fault of the condition stands at the word.
    fn branch_row(
        &self,
        found: &mut Found,
        around: &Around<'_>,
        at: Pos,
        condition: &Expr,
        body: &Stmt,
    ) -> Result<Option<Branch>, Memory>
        requires { Nests WalksStmt self.now.more (F.pre self.now.inside) (F.post self.now.inside) }
        ensures { Walks (parts.branch_row (spec.condition_row at (expr_typing condition.now)) (stmt_typing body.now)) around.now found.old result found.new }
    {
        let condition = condition_row(self.alloc, found, around, at, condition)?;
        let Ok(body) = self.scoped_row(found, around, body) else {
            drop(condition);
            return Err(Memory);
        };
        Ok(both_branches(condition, body))
    }
}
