//! The branches of an `if` (C11 6.8.4.1).
//! No walk: the scopes that an `if` opens, and its branches from what their walks gave.

ghost use Rattle.std.specs.Prelude.{◌≡◌, ◌∷◌, ◌++◌, [], IfOk};
ghost use Rattle.std.specs.Option.{option_map};
ghost use Rattle.c_tree.specs.declared.typed.statement.TStmt.TheVariants as t;
ghost use Rattle.c_type_statements.specs.Statements as spec;

use crate::whole::{boxed_behind, one_behind};
use c_tree::typed::{Branch, TExpr, TStmt};
use c_type_declarations::one;
use c_type_walk::{Around, Found};
use std::alloc::Global;
use word_ops::{Items, Memory};

/// Scopes that were opened one in another and end together: how many names and tags were visible where the outermost of
/// them begins.
#[derive(Clone, Copy)]
pub(crate) struct Opened {
    marks: Option<(usize, usize)>,
}

impl Opened {
    pub(crate) fn new() -> Opened
        ensures { result ≡ spec.none_opened }
    {
        Opened { marks: None }
    }

    /// One more scope, by what is fixed in it.
    pub(crate) fn open(&mut self, within: &Around<'_>)
        ensures { self.new ≡ spec.opened_by self.old within.now.names_from within.now.tags_from }
    {
        self.marks = match self.marks {
            None => Some((within.names_from, within.tags_from)),
            Some((names, tags)) => {
                Some((names.min(within.names_from), tags.min(within.tags_from)))
            }
        };
    }

    /// Ends them all.
    pub(crate) fn close(self, found: &mut Found)
        ensures faults { found.new.faults ≡ found.old.faults }
        ensures state { found.new.state ≡ spec.closed_all self found.old.state }
    {
        if let Some((names, tags)) = self.marks {
            found.close(names, tags);
        }
    }
}

/// A condition and what is done where it holds, where both are there.
pub(crate) fn both_branches(condition: Option<TExpr>, body: Option<TStmt>) -> Option<Branch>
    ensures { result ≡ spec.both_branches condition body }
{
    match condition.zip(body) {
        Some((condition, body)) => Some(Branch { condition, body }),
        None => None,
    }
}

/// One more behind others, where all are there.
///
/// # Errors
///
/// `Memory` where memory is wanting.
pub(crate) fn with_one<T: Drop>(
    all: Option<Items<T>>,
    one: Option<T>,
) -> Result<Option<Items<T>>, Memory>
    ensures { IfOk result (λ r. r ≡ spec.with_one all one) }
{
    let Some(all) = all else {
        drop(one);
        return Ok(None);
    };
    let Some(one) = one else {
        drop(all);
        return Ok(None);
    };
    Ok(Some(one_behind(all, one)?))
}

/// The first branch of an `if`, alone.
///
/// # Errors
///
/// `Memory` where memory is wanting.
pub(crate) fn first_branch(
    alloc: Global,
    branch: Option<Branch>,
) -> Result<Option<Items<Branch>>, Memory>
    ensures { IfOk result (λ r. r ≡ option_map (λ b. b ∷ []) branch) }
{
    match branch {
        Some(branch) => Ok(Some(one(alloc, branch)?)),
        None => Ok(None),
    }
}

/// An `if` of its first branch, the others and what is done where no condition holds, where all are there.
///
/// # Errors
///
/// `Memory` where memory is wanting.
pub(crate) fn if_of(
    alloc: Global,
    first: Option<Items<Branch>>,
    others: Option<(Items<Branch>, TStmt)>,
) -> Result<Option<TStmt>, Memory>
    ensures { IfOk result (λ r. r ≡ spec.if_of first others) }
{
    match first.zip(others) {
        Some((first, (others, last))) => Ok(Some(if_made(alloc, first, others, last)?)),
        None => Ok(None),
    }
}

fn if_made(
    alloc: Global,
    first: Items<Branch>,
    others: Items<Branch>,
    last: TStmt,
) -> Result<TStmt, Memory>
    ensures { IfOk result (λ r. r ≡ t.If (first ++ others) last) }
{
    let Ok((mut branches, last)) = boxed_behind(alloc, first, last) else {
        drop(others);
        return Err(Memory);
    };
    if branches.append(others).is_err() {
        drop((branches, last));
        return Err(Memory);
    }
    Ok(TStmt::If(branches, last))
}
