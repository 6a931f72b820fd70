//! Function definitions (C11 6.9.1).
//! Walks over a definition: its header by c_type_trees, its body by c_type_statements.

ghost use Rattle.std.specs.Prelude.{◌≡◌, ◌++◌, ◌∷◌, [], false, true, map, length, IfOk, OnOk};
ghost use Rattle.std.specs.Option.{option_map};
ghost use Rattle.c_typing.specs.Declarations as declarations;
ghost use Rattle.c_typing.specs.Scopes as scopes;
ghost use Rattle.c_typing.specs.Statements.{block_typing, block_item_typing};
ghost use Rattle.c_typing.specs.Trees.{declarator_typing};
ghost use Rattle.c_typing.specs.Types as types;
ghost use Rattle.c_typing.specs.Units as spec;
ghost use Rattle.c_type_walk.specs.Walks.{Walks, fixed};
ghost use Rattle.c_types.specs.Definitions as parts;

use c_tree::typed::{Base, CType, Object, Objects, TFunction, TStmt};
use c_tree::{
    Block, BlockItem, Declarator, Definition, FaultKind, Identifier, Pos, Storage,
    definition_tokens,
};
use c_type_declarations::{
    allows_untyped_linked, is_addressed, is_defined, linked, linked_faults, object_of,
};
use c_type_declarators::{derive, name_place};
use c_type_expressions::is_library;
use c_type_rules::{TypeShape, copied, is_struct, plain, scalar_of, shape};
use c_type_statements::{begin_objects, count_items, end_objects, items_row};
use c_type_trees::{first_specifier, name, parts, specifiers};
use c_type_walk::{Around, Found};
use c_typing::{Basis, Meaning, Parameter, Part, State};
use std::alloc::Global;
use word_ops::{Items, Memory};

/// A function definition.
///
/// # Errors
///
/// `Memory` where memory is wanting.
pub(crate) fn definition_row(
    alloc: Global,
    found: &mut Found,
    around: &Around<'_>,
    tree: &Definition,
) -> Result<Option<TFunction>, Memory>
    ensures { Walks (spec.definition_row (spec.defined_of tree.now)) around.now found.old result found.new }
{
    let list = tree.specifiers.as_slice();
    let first = first_specifier(list);
    let basis = specifiers(alloc, found, around, false, list)?;
    let basis = defining_basis(found, around, first, basis)?;
    let place = name_place(name(&tree.declarator), first);
    found.begin_definition(alloc);
    let header = header(alloc, found, around, place, basis, &tree.declarator)?;
    behind_header(alloc, found, around, tree, header)
}

/// What a definition with this header comes to.
fn behind_header(
    alloc: Global,
    found: &mut Found,
    around: &Around<'_>,
    tree: &Definition,
    header: Option<(Items<Part>, CType)>,
) -> Result<Option<TFunction>, Memory>
    ensures { Walks (parts.behind_header (spec.defined_of tree.now) (declarator_typing tree.now.declarator).name header) around.now found.old result found.new }
{
    let Some(name) = name(&tree.declarator) else {
        drop(header);
        return Ok(None);
    };
    match header {
        Some(header) => defined_as(alloc, found, around, tree, name, header),
        None => untyped_definition(alloc, found, around, name),
    }
}

/// A definition has no storage word but `extern` and `static` (C11 6.9.1p4).
fn defining_basis(
    found: &mut Found,
    around: &Around<'_>,
    first: Pos,
    basis: Option<Basis>,
) -> Result<Option<Basis>, Memory>
    ensures { Walks (scopes.asked basis (spec.defining_basis first)) around.now found.old result found.new }
{
    let Some(basis) = basis else {
        return Ok(None);
    };
    if is_typedef(basis.storage) {
        return found.tell(around, FaultKind::BadSpecifier, first);
    }
    Ok(Some(basis))
}

fn is_typedef(storage: Option<Storage>) -> bool
    ensures { result ≡ declarations.is_typedef storage }
{
    match storage {
        Some(Storage::Typedef) => true,
        _ => false,
    }
}

/// The derivations of the declarator, and the type of the function.
fn header(
    alloc: Global,
    found: &mut Found,
    around: &Around<'_>,
    at: Pos,
    basis: Option<Basis>,
    tree: &Declarator,
) -> Result<Option<(Items<Part>, CType)>, Memory>
    ensures { Walks (spec.header at basis (declarator_typing tree.now)) around.now found.old result found.new }
{
    let list = parts(alloc, found, around, tree, true)?;
    let (Some(list), Some(basis)) = (list, basis) else {
        return Ok(None);
    };
    let ctype = derive(alloc, found, around, at, list.as_slice(), basis.ctype)?;
    match ctype {
        Some(ctype) => Ok(Some((list, ctype))),
        None => Ok(None),
    }
}

/// A definition in whose header there is a fault: its body is not asked, since that fault stands before it.
fn untyped_definition(
    alloc: Global,
    found: &mut Found,
    around: &Around<'_>,
    name: &Identifier,
) -> Result<Option<TFunction>, Memory>
    ensures { Walks (spec.untyped_definition name.now) around.now found.old result found.new }
{
    let allowed = allows_untyped_linked(found.own_meaning(around, &name.text));
    let refused = !allowed || (is_defined(found.linkage(&name.text)) || is_library(&name.text));
    found.tell_if(refused, FaultKind::Redeclared, name.place)?;
    found.declare(alloc, &name.text, Meaning::Unknown)?;
    Ok(None)
}

/// A definition of this type: its name is declared at file scope, and the block stands in the scope that its parameters
/// begin (C11 6.2.1p4).
fn defined_as(
    alloc: Global,
    found: &mut Found,
    around: &Around<'_>,
    tree: &Definition,
    name: &Identifier,
    header: (Items<Part>, CType),
) -> Result<Option<TFunction>, Memory>
    ensures { Walks (parts.defined_as (spec.defined_of tree.now) name.now header) around.now found.old result found.new }
{
    let tokens = definition_tokens(tree)?;
    let (list, ctype) = header;
    linked_faults(alloc, found, around, name, true, &ctype)?;
    let value = result_of(alloc, &ctype)?;
    let parameters = parameters_of(alloc, list);
    begin(alloc, found, name, ctype, parameters.as_slice())?;
    let body = scoped_body(
        alloc,
        found,
        around,
        &value,
        parameters.as_slice(),
        &tree.body,
    )?;
    end(alloc, found);
    Ok(function_of(tokens, value, body))
}

/// Begins a function of this type and these parameters: its name is declared, and no object of it yet but them.
fn begin(
    alloc: Global,
    found: &mut Found,
    name: &Identifier,
    ctype: CType,
    parameters: &[Parameter],
) -> Result<(), Memory>
    ensures faults { found.new.faults ≡ found.old.faults }
    ensures state { OnOk result (found.new.state ≡ parts.begun_as name.now.text ctype parameters.now found.old.state) }
{
    let Ok(()) = parameters_ready(found, parameters) else {
        drop(ctype);
        return Err(Memory);
    };
    linked(alloc, found, &name.text, true, ctype)?;
    found.state.declared = u32::try_from(parameters.len()).map_err(|_| Memory)?;
    found.state.own = Items::new(alloc);
    found.state.addressed = Items::new(alloc);
    Ok(())
}

/// Ends a function: nothing is left of its objects.
fn end(alloc: Global, found: &mut Found)
    ensures faults { found.new.faults ≡ found.old.faults }
    ensures state { found.new.state ≡ spec.ended found.old.state }
{
    found.state.declared = 0;
    found.state.own = Items::new(alloc);
    found.state.addressed = Items::new(alloc);
}

/// The block of a function of this value and these parameters, in the scope that begins with them.
fn scoped_body(
    alloc: Global,
    found: &mut Found,
    around: &Around<'_>,
    value: &CType,
    parameters: &[Parameter],
    tree: &Block,
) -> Result<Option<(TStmt, Items<Object>)>, Memory>
    ensures { Walks (scopes.in_definition (spec.body_row parameters.now value.now (block_typing tree.now))) around.now found.old result found.new }
{
    found.enter_definition(alloc);
    let within = around.in_definition();
    let body = body_row(alloc, found, &within, value, parameters, tree)?;
    found.leave_definition(alloc);
    Ok(body)
}

/// The function of a definition of so many tokens whose body is this.
fn function_of(tokens: u64, value: CType, body: Option<(TStmt, Items<Object>)>) -> Option<TFunction>
    ensures { result ≡ option_map (spec.function_made tokens value) body }
{
    match body {
        Some((body, parameters)) => Some(TFunction {
            scalar: scalar_of(&value),
            result: value,
            parameters,
            body,
            tokens,
        }),
        None => None,
    }
}

/// The parameters of the function that the last derivation makes.
fn parameters_of(alloc: Global, list: Items<Part>) -> Items<Parameter>
    ensures { result ≡ spec.parameters_of list }
{
    let mut list = list;
    match list.pop() {
        Some(last) => listed(alloc, last),
        None => Items::new(alloc),
    }
}

/// The parameters that a derivation lists.
fn listed(alloc: Global, part: Part) -> Items<Parameter>
    ensures { result ≡ spec.parameters_of (part ∷ []) }
{
    match part {
        Part::Listing(parameters) => parameters,
        Part::Pointing(_) => Items::new(alloc),
        Part::Arraying(_) => Items::new(alloc),
        Part::SomeArray => Items::new(alloc),
        Part::SomeFunction => Items::new(alloc),
    }
}

/// The type of the value of a function.
fn result_of(alloc: Global, ctype: &CType) -> Result<CType, Memory>
    ensures { IfOk result (λ r. r ≡ spec.result_of_shape (types.shape ctype.now)) }
{
    match shape(ctype) {
        TypeShape::FunctionOf(_, value) => value.copied(alloc),
        _ => Ok(plain(alloc, Base::Void)),
    }
}

/// Parameters of structure types have no typed tree yet.
fn parameters_ready(found: &mut Found, list: &[Parameter]) -> Result<(), Memory>
    ensures faults { found.new.faults ≡ found.old.faults }
    ensures state { OnOk result (found.new.state ≡ spec.readied list.now found.old.state) }
{
    for one in list {
        let place = name_place(one.name.as_ref(), one.first);
        found.unready_if(is_struct(&one.ctype), FaultKind::StructValue, place)?;
    }
    Ok(())
}

/// The block of a function, and its parameters as objects, once all is known of them.
fn body_row(
    alloc: Global,
    found: &mut Found,
    around: &Around<'_>,
    value: &CType,
    parameters: &[Parameter],
    tree: &Block,
) -> Result<Option<(TStmt, Items<Object>)>, Memory>
    ensures { Walks (spec.body_row parameters.now value.now (block_typing tree.now)) around.now found.old result found.new }
{
    let within = in_body(around, value, parameters.len())?;
    let made = owned_row(alloc, found, &within, tree.items.as_slice())?;
    let parameters = parameter_objects(alloc, &found.state, parameters)?;
    match made {
        Some((objects, made)) => Ok(Some((TStmt::Block(objects, made), parameters))),
        None => Ok(None),
    }
}

/// What is fixed in the block of a function of this value and so many parameters.
fn in_body<'a>(
    around: &Around<'a>,
    value: &'a CType,
    parameters: usize,
) -> Result<Around<'a>, Memory>
    ensures { IfOk result (λ c. fixed c ≡ record (fixed around.now) { own_from = 0; inner_from = parameters; may_break = false; may_continue = false; result = value.now }) }
{
    Ok(Around {
        own_from: 0,
        inner_from: u32::try_from(parameters).map_err(|_| Memory)?,
        may_break: false,
        may_continue: false,
        result: value,
        ..*around
    })
}

/// The items of a block, and the objects that it declares.
fn owned_row(
    alloc: Global,
    found: &mut Found,
    around: &Around<'_>,
    items: &[BlockItem],
) -> Result<Option<(Objects, Items<TStmt>)>, Memory>
    ensures { Walks (spec.owned_row (map block_item_typing items.now)) around.now found.old result found.new }
{
    let count = count_items(alloc, &found.state, items)?;
    let (outside, within) = begin_objects(alloc, found, around, count)?;
    let made = items_row(alloc, found, &within, items)?;
    let objects = end_objects(alloc, found, outside)?;
    match made {
        Some(made) => Ok(Some((objects, made))),
        None => Ok(None),
    }
}

/// The objects that parameters are, numbered from 0.
fn parameter_objects(
    alloc: Global,
    state: &State,
    list: &[Parameter],
) -> Result<Items<Object>, Memory>
    ensures { IfOk result (λ r. r ≡ spec.parameter_objects state.now 0 list.now) }
{
    let mut objects = Items::new(alloc);
    let mut number: u32 = 0;
    for one in list {
        let ctype = copied(alloc, &one.ctype)?;
        let addressed = is_addressed(state, number);
        objects.push(object_of(&state.structs, addressed, ctype))?;
        let Some(next) = number.checked_add(1) else {
            return Err(Memory);
        };
        number = next;
    }
    Ok(objects)
}
