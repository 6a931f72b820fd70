//! The recursion on the statements that stand inside one another.
//! Ends each walk of this crate: the one function that leads back to itself, with a count that goes down.

ghost use Rattle.c_typing.specs.Statements.{stmt_typing};
ghost use Rattle.c_type_walk.specs.Nests.{Nests};
ghost use Rattle.c_type_walk.specs.Walks.{Walks};
ghost use Rattle.c_type_statements.specs.Nested.{WalksStmt};

use crate::values::{break_row, continue_row, expression_row, return_row};
use crate::walker::Walker;
use c_tree::Stmt;
use c_tree::typed::TStmt;
use c_type_walk::{Around, Found};
use std::alloc::Global;
use word_ops::Memory;

impl<F: Fn(Global, &mut Found, &Around<'_>, u64, &Stmt) -> Result<Option<TStmt>, Memory>> Walker<
    F,
> {
    /// A statement (C11 6.8).
    ///
    /// # Errors
    ///
    /// `Memory` where memory is wanting.
    fn stmt_row(
        &self,
        found: &mut Found,
        around: &Around<'_>,
        tree: &Stmt,
    ) -> Result<Option<TStmt>, Memory>
        requires { Nests WalksStmt self.now.more (F.pre self.now.inside) (F.post self.now.inside) }
        ensures { Walks (stmt_typing tree.now) around.now found.old result found.new }
    {
        match tree {
            Stmt::Block(block) => self.block_row(found, around, block.items.as_slice()),
            Stmt::Expression(value, _) => {
                expression_row(self.alloc, found, around, value.as_ref())
            }
            Stmt::If {
                word,
                condition,
                body,
                others,
            } => {
                let others = others.as_slice();
                self.if_row(found, around, *word, &condition.value, body.get(), others)
            }
            Stmt::While(word, condition, body) => {
                self.while_row(found, around, *word, &condition.value, body.get())
            }
            Stmt::Do {
                word,
                body,
                condition,
                ..
            } => self.do_row(found, around, *word, body.get(), &condition.value),
            Stmt::For(word, control, body) => {
                self.for_row(found, around, *word, control, body.get())
            }
            Stmt::Switch(word, condition, body) => {
                let items = body.items.as_slice();
                self.switch_row(found, around, *word, &condition.value, items)
            }
            Stmt::Break(word, _) => break_row(found, around, *word),
            Stmt::Continue(word, _) => continue_row(found, around, *word),
            Stmt::Return(word, value, _) => {
                return_row(self.alloc, found, around, *word, value.as_ref())
            }
        }
    }
}

/// What typing makes of a statement, where so many may stand inside one another with that one.
///
/// # Errors
///
/// `Memory` where memory is wanting, or no more statements may stand inside one another.
pub(crate) fn inside(
    alloc: Global,
    found: &mut Found,
    around: &Around<'_>,
    more: u64,
    tree: &Stmt,
) -> Result<Option<TStmt>, Memory>
    ensures { Walks (stmt_typing tree.now) around.now found.old result found.new }
{
    if more == 0 {
        return Err(Memory);
    }
    let walker = Walker {
        alloc,
        more: more - 1,
        inside,
    };
    walker.stmt_row(found, around, tree)
}
