//! Blocks, and the objects that they declare (C11 6.8.2, 6.2.4p5).
//! No walk of trees: it counts what a block declares, and begins and ends its objects.

ghost use Rattle.std.specs.Prelude.{◌≡◌, IfOk, OnOk, map};
ghost use Rattle.c_typing.specs.Declarations as declarations;
ghost use Rattle.c_typing.specs.OfStatements as spec;
ghost use Rattle.c_typing.specs.Statements.{block_item_typing};
ghost use Rattle.c_type_walk.specs.Walks.{fixed};
ghost use Rattle.c_type_statements.specs.Statements.{counted_item, empty_block, opened_around, opened_state};
ghost use Rattle.c_type_declarations.specs.Counting.{named};

use crate::whole::one_behind;
use c_tree::typed::{Object, Objects, TStmt};
use c_tree::{BlockItem, Declaration};
use c_type_declarations::{FunctionNames, automatic_count, is_addressed, object_of};
use c_type_rules::copied;
use c_type_walk::{Around, Found};
use c_typing::{Local, State};
use std::alloc::Global;
use std::mem;
use word_ops::{Items, Memory};

/// How many automatic objects a block declares itself.
///
/// # Errors
///
/// `Memory` where memory is wanting, or the number is 2^64.
pub fn count_items(alloc: Global, state: &State, items: &[BlockItem]) -> Result<usize, Memory>
    ensures { IfOk result (λ n. n ≡ spec.count_items (spec.function_names state.now) (map block_item_typing items.now)) }
{
    let mut names = FunctionNames::new(alloc, Some(state));
    let count = count_behind(alloc, &mut names, items);
    drop(names);
    count
}

/// How many automatic objects these items of a block declare, where these names are visible before them.
fn count_behind(
    alloc: Global,
    names: &mut FunctionNames<'_>,
    items: &[BlockItem],
) -> Result<usize, Memory>
    ensures { IfOk result (λ n. n ≡ spec.count_items (named names.old) (map block_item_typing items.now)) }
{
    let mut count: usize = 0;
    for item in items {
        let more = count_item(alloc, names, item)?;
        let Some(sum) = count.checked_add(more) else {
            return Err(Memory);
        };
        count = sum;
    }
    Ok(count)
}

/// How many automatic objects the declaration in the head of a `for` declares.
///
/// # Errors
///
/// `Memory` where memory is wanting.
pub(crate) fn count_declared(
    alloc: Global,
    found: &Found,
    tree: &Declaration,
) -> Result<usize, Memory>
    ensures { IfOk result (λ n. n ≡ (declarations.automatic_count (spec.function_names found.now.state) (declarations.declared_of tree.now)).0) }
{
    let mut names = FunctionNames::new(alloc, Some(&found.state));
    let count = automatic_count(alloc, &mut names, tree);
    drop(names);
    count
}

/// How many an item of a block declares; `names` are then those behind it.
fn count_item(
    alloc: Global,
    names: &mut FunctionNames<'_>,
    item: &BlockItem,
) -> Result<usize, Memory>
    ensures count { IfOk result (λ n. n ≡ (counted_item (named names.old) (block_item_typing item.now)).0) }
    ensures names { OnOk result (named names.new ≡ (counted_item (named names.old) (block_item_typing item.now)).1) }
{
    match item {
        BlockItem::Declaration(declaration) => automatic_count(alloc, names, declaration),
        BlockItem::Statement(_) => Ok(0),
        BlockItem::Case(_, _, _) => Ok(0),
        BlockItem::Default(_, _) => Ok(0),
    }
}

/// What is put by while a block is walked: the objects of the block around it, and how many the function had declared.
#[derive(Drop)]
pub struct Outside {
    /// the objects of the block around it
    pub own: Items<Local>,
    /// how many objects the function had declared
    pub declared: u32,
}

/// Begins the objects of a block, which has so many of its own; what is fixed in the block is given too.
///
/// # Errors
///
/// `Memory` where a number is 2^32.
pub fn begin_objects<'a>(
    alloc: Global,
    found: &mut Found,
    around: &Around<'a>,
    count: usize,
) -> Result<(Outside, Around<'a>), Memory>
    ensures faults { found.new.faults ≡ found.old.faults }
    ensures state { OnOk result (found.new.state ≡ opened_state count found.old.state) }
    ensures outside { IfOk result (λ r. (r.0.own ≡ found.old.state.own) × (r.0.declared ≡ found.old.state.declared)) }
    ensures within { IfOk result (λ r. fixed r.1 ≡ opened_around count found.old.state (fixed around.now)) }
{
    let count = u32::try_from(count).map_err(|_| Memory)?;
    let Some(inner_from) = around.inner_from.checked_add(count) else {
        return Err(Memory);
    };
    let declared = found.state.declared;
    let Some(after) = declared.checked_add(count) else {
        return Err(Memory);
    };
    let within = Around {
        own_from: around.inner_from,
        inner_from,
        numbers_from: declared,
        ..*around
    };
    found.state.declared = after;
    let own = mem::replace(&mut found.state.own, Items::new(alloc));
    Ok((Outside { own, declared }, within))
}

/// Ends the objects of a block: they are told, now that all is known of them.
///
/// # Errors
///
/// `Memory` where memory is wanting.
pub fn end_objects(alloc: Global, found: &mut Found, outside: Outside) -> Result<Objects, Memory>
    ensures given { IfOk result (λ r. r ≡ record { first = outside.declared; list = spec.objects_of found.old.state found.old.state.own }) }
    ensures faults { found.new.faults ≡ found.old.faults }
    ensures state { OnOk result (found.new.state ≡ record found.old.state { own = outside.own }) }
{
    let Ok(list) = objects_of(alloc, &found.state) else {
        drop(outside);
        return Err(Memory);
    };
    drop(mem::replace(&mut found.state.own, outside.own));
    Ok(Objects {
        first: outside.declared,
        list,
    })
}

/// The objects of the present block.
fn objects_of(alloc: Global, state: &State) -> Result<Items<Object>, Memory>
    ensures { IfOk result (λ r. r ≡ spec.objects_of state.now state.now.own) }
{
    let mut objects = Items::new(alloc);
    for local in state.own.as_slice() {
        let addressed = is_addressed(state, local.number);
        let Ok(ctype) = copied(alloc, &local.ctype) else {
            drop(objects);
            return Err(Memory);
        };
        objects = one_behind(objects, object_of(&state.structs, addressed, ctype))?;
    }
    Ok(objects)
}

/// Statements without objects of their own; none of them is nothing (C11 6.8.3p3).
pub(crate) fn empty(alloc: Global, found: &Found, made: Items<TStmt>) -> TStmt
    ensures { result ≡ empty_block found.now.state made }
{
    let objects = Objects {
        first: found.state.declared,
        list: Items::new(alloc),
    };
    TStmt::Block(objects, made)
}
