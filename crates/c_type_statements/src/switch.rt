//! The labels and the parts of a `switch` (C11 6.8.4.2).
//! No walk: what `switches` has passed of its labels, and the rows of a label.

ghost use Rattle.std.specs.Prelude.{◌≡◌, ◌++◌, ◌==◌, IfOk, OnOk};
ghost use Rattle.std.specs.List.{list_any};
ghost use Rattle.c_typing.specs.OfStatements as spec;
ghost use Rattle.c_typing.specs.Trees.{expr_typing};
ghost use Rattle.c_type_statements.specs.Statements.{WalksPart, ended, parting_of};

use c_tree::typed::{Label, Part, TStmt};
use c_tree::{Expr, FaultKind, Pos};
use c_type_declarators::constant_row;
use c_type_trees::{expr, first_token};
use c_type_walk::{Around, Found};
use indexed_list::IndexedList;
use std::alloc::Global;
use std::mem;
use word_ops::{Items, Memory};

/// The parts that are done, and the labels and the statements of the present one.
#[derive(Drop)]
pub(crate) struct Parting {
    done: Items<Part>,
    labels: Items<Label>,
    body: Items<TStmt>,
    /// the values of all labels so far
    values: IndexedList<u32>,
    has_default: bool,
}

impl Parting {
    /// No part yet. Takes no memory.
    pub(crate) fn new(alloc: Global) -> Parting
        ensures { parting_of result ≡ spec.no_parts }
    {
        Parting {
            done: Items::new(alloc),
            labels: Items::new(alloc),
            body: Items::new(alloc),
            values: IndexedList::new(alloc),
            has_default: false,
        }
    }

    /// Statements behind those of the present part.
    ///
    /// # Errors
    ///
    /// `Memory` where memory is wanting.
    pub(crate) fn add(&mut self, made: Items<TStmt>) -> Result<(), Memory>
        ensures { OnOk result (parting_of self.new ≡ record (parting_of self.old) { body = (parting_of self.old).body ++ made }) }
    {
        self.body.append(made)?;
        Ok(())
    }

    /// Ends the present part, unless nothing is in it.
    fn end_part(&mut self, alloc: Global) -> Result<(), Memory>
        ensures { OnOk result (parting_of self.new ≡ ended (parting_of self.old)) }
    {
        if self.labels.is_empty() && self.body.is_empty() {
            return Ok(());
        }
        let labels = mem::replace(&mut self.labels, Items::new(alloc));
        let body = mem::replace(&mut self.body, Items::new(alloc));
        self.done.push(Part { labels, body })?;
        Ok(())
    }

    /// A label begins a part, unless it stands directly behind another one.
    fn label(&mut self, alloc: Global, label: Label) -> Result<(), Memory>
        ensures { OnOk result (parting_of self.new ≡ spec.labelled label (parting_of self.old)) }
    {
        if !self.body.is_empty() {
            self.end_part(alloc)?;
        }
        self.labels.push(label)?;
        Ok(())
    }

    /// Whether a label has this value.
    fn has_value(&self, value: u32) -> bool
        ensures { result ≡ list_any (λ m. m == value) (parting_of self.now).values }
    {
        self.values.contains(&value)
    }

    /// All parts.
    ///
    /// # Errors
    ///
    /// `Memory` where memory is wanting.
    pub(crate) fn finish(mut self, alloc: Global) -> Result<Items<Part>, Memory>
        ensures { IfOk result (λ r. r ≡ (parting_of self).done ++ spec.part_if (parting_of self).labels (parting_of self).body) }
    {
        if self.end_part(alloc).is_err() {
            drop(self);
            return Err(Memory);
        }
        let Parting {
            done,
            labels,
            body,
            values,
            ..
        } = self;
        drop((labels, body, values));
        Ok(done)
    }
}

/// `case` (C11 6.8.1): two values that are equal at the promoted type, of four bytes, are equal words (C11 6.8.4.2p3).
/// Tells whether no fault stands in it.
///
/// # Errors
///
/// `Memory` where memory is wanting.
pub(crate) fn case_row(
    alloc: Global,
    found: &mut Found,
    around: &Around<'_>,
    parting: &mut Parting,
    at: Pos,
    tree: &Expr,
) -> Result<bool, Memory>
    ensures { WalksPart (spec.part_row (parting_of parting.old) (spec.Cases at (expr_typing tree.now))) around.now found.old parting.new result found.new }
{
    let Some(operand) = expr(alloc, found, around, tree)? else {
        return Ok(false);
    };
    let Some((value, _)) = constant_row(alloc, found, around, first_token(tree), operand)? else {
        return Ok(false);
    };
    if parting.has_value(value) {
        let _nothing: Option<()> = found.tell(around, FaultKind::Redeclared, at)?;
        return Ok(false);
    }
    parting.label(alloc, Label::Case(value))?;
    parting.values.push(alloc, value)?;
    Ok(true)
}

/// `default` (C11 6.8.1), which stands once (C11 6.8.4.2p3). Tells whether no fault stands in it.
///
/// # Errors
///
/// `Memory` where memory is wanting.
pub(crate) fn default_row(
    alloc: Global,
    found: &mut Found,
    around: &Around<'_>,
    parting: &mut Parting,
    at: Pos,
) -> Result<bool, Memory>
    ensures { WalksPart (spec.part_row (parting_of parting.old) (spec.Defaults at)) around.now found.old parting.new result found.new }
{
    if parting.has_default {
        let _nothing: Option<()> = found.tell(around, FaultKind::Redeclared, at)?;
        return Ok(false);
    }
    parting.label(alloc, Label::Default)?;
    parting.has_default = true;
    Ok(true)
}
