//! The walker, and a statement that stands inside another.
//! Walks by the function value that the walker holds, so that none of them leads back to itself.

ghost use Rattle.c_typing.specs.Scopes as scopes;
ghost use Rattle.c_typing.specs.Statements.{stmt_typing};
ghost use Rattle.c_type_walk.specs.Nests.{Nests};
ghost use Rattle.c_type_walk.specs.Walks.{Walks};
ghost use Rattle.c_type_statements.specs.Nested.{WalksStmt};

use c_tree::Stmt;
use c_tree::typed::TStmt;
use c_type_walk::{Around, Found};
use std::alloc::Global;
use word_ops::Memory;

/// A walk over statements, where `more` of them may still stand inside one another. `inside` walks over those.
#[derive(Clone, Copy)]
pub(crate) struct Walker<F> {
    pub alloc: Global,
    pub more: u64,
    pub inside: F,
}

impl<F: Fn(Global, &mut Found, &Around<'_>, u64, &Stmt) -> Result<Option<TStmt>, Memory>> Walker<
    F,
> {
    /// A statement inside another.
    pub fn nested(
        &self,
        found: &mut Found,
        around: &Around<'_>,
        tree: &Stmt,
    ) -> Result<Option<TStmt>, Memory>
        requires { Nests WalksStmt self.now.more (F.pre self.now.inside) (F.post self.now.inside) }
        ensures { Walks (stmt_typing tree.now) around.now found.old result found.new }
    {
        (self.inside)(self.alloc, found, around, self.more, tree)
    }

    /// A statement in a scope of its own (C11 6.8.4p3, 6.8.5p5).
    pub fn scoped_row(
        &self,
        found: &mut Found,
        around: &Around<'_>,
        tree: &Stmt,
    ) -> Result<Option<TStmt>, Memory>
        requires { Nests WalksStmt self.now.more (F.pre self.now.inside) (F.post self.now.inside) }
        ensures { Walks (scopes.scoped (stmt_typing tree.now)) around.now found.old result found.new }
    {
        let within = around.in_scope(found);
        let made = self.nested(found, &within, tree)?;
        found.close(within.names_from, within.tags_from);
        Ok(made)
    }
}
