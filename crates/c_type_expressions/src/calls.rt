//! The row of a call, of a function of the unit (C11 6.5.2.2) or of the library
//! (C11 7.21.7.6, 7.21.7.8, 7.22.4.4).

ghost use Rattle.std.specs.Prelude.{◌≡◌, ◌++◌, false, List, Some, IfOk, OnOk};
ghost use Rattle.c_typing.specs.Types as types;
ghost use Rattle.c_typing.specs.Scopes as scopes;
ghost use Rattle.c_typing.specs.Expressions as spec;
ghost use Rattle.c_type_walk.specs.Walks.{Walks};
ghost use Rattle.c_type_expressions.specs.Calls.{answered, both_given, made};

use crate::given::given_row;
use crate::refusals::refused;
use crate::trees::with_item;
use c_tree::typed::{Base, CType, TExpr};
use c_tree::{FaultKind, Identifier, Pos};
use c_type_rules::{TypeShape, copied, is_struct, is_void, plain, shape, unqualified, value};
use c_type_walk::{Around, Found, number_in};
use c_typing::{Meaning, Operand};
use std::alloc::Global;
use word_ops::{Boxed, Items, Memory, Text};

/// An argument of a call: its first token, and what it is, where no fault stands in it.
pub type Argument = (Pos, Option<Operand>);

/// A call of what this name stands for (C11 6.5.2.2).
///
/// # Errors
///
/// `Memory` where memory is wanting.
pub fn call_row(
    alloc: Global,
    found: &mut Found,
    around: &Around<'_>,
    name: &Identifier,
    place: Pos,
    arguments: Vec<Argument>,
) -> Result<Option<Operand>, Memory>
    ensures { Walks (spec.call_row name.now place arguments.items) around.now found.old result found.new }
{
    match found.meaning(&name.text) {
        None => refused(found, around, FaultKind::Undeclared, name.place, arguments),
        Some(Meaning::Linked(ctype)) => {
            let Ok(ctype) = copied(alloc, ctype) else {
                drop(arguments);
                return Err(Memory);
            };
            let call = linked_call(alloc, found, around, name, place, arguments, &ctype);
            drop(ctype);
            call
        }
        Some(Meaning::Unknown) => {
            drop(arguments);
            Ok(None)
        }
        Some(_) => refused(found, around, FaultKind::BadCall, place, arguments),
    }
}

/// A call of something with linkage. Arguments of the wrong number are asked as far as there are parameters.
fn linked_call(
    alloc: Global,
    found: &mut Found,
    around: &Around<'_>,
    name: &Identifier,
    place: Pos,
    arguments: Vec<Argument>,
    ctype: &CType,
) -> Result<Option<Operand>, Memory>
    ensures { Walks (spec.linked_call name.now place arguments.items (types.shape ctype.now)) around.now found.old result found.new }
{
    let TypeShape::FunctionOf(parameters, given) = shape(ctype) else {
        drop(arguments);
        return object_called(found, around, name, place);
    };
    let Ok(definition) = defined_function(found, around, name) else {
        drop(arguments);
        return Err(Memory);
    };
    let Ok(given) = given.copied(alloc) else {
        drop(arguments);
        return Err(Memory);
    };
    function_call(
        alloc, found, around, name, place, arguments, parameters, given, definition,
    )
}

/// A call of a function with parameters of these types, which gives a value of the type `given`; `definition` is its number.
fn function_call(
    alloc: Global,
    found: &mut Found,
    around: &Around<'_>,
    name: &Identifier,
    place: Pos,
    arguments: Vec<Argument>,
    parameters: &[CType],
    given: CType,
    definition: Option<u32>,
) -> Result<Option<Operand>, Memory>
    requires { definition ≡ scopes.number_in 0 around.now.functions.now name.now.text }
    ensures { Walks (spec.function_call name.now place arguments.items parameters.now given) around.now found.old result found.new }
{
    let as_many = are_as_many(arguments.as_slice(), parameters);
    if found.tell_if(!as_many, FaultKind::BadCall, place).is_err() {
        drop((arguments, given));
        return Err(Memory);
    }
    if found
        .unready_if(is_struct(&given), FaultKind::StructValue, place)
        .is_err()
    {
        drop((arguments, given));
        return Err(Memory);
    }
    answered_call(
        alloc, found, around, name, arguments, parameters, given, definition,
    )
}

/// The same, where it has been told whether there are as many arguments as parameters.
fn answered_call(
    alloc: Global,
    found: &mut Found,
    around: &Around<'_>,
    name: &Identifier,
    arguments: Vec<Argument>,
    parameters: &[CType],
    given: CType,
    definition: Option<u32>,
) -> Result<Option<Operand>, Memory>
    requires { definition ≡ scopes.number_in 0 around.now.functions.now name.now.text }
    ensures { Walks (answered name.now arguments.items parameters.now given) around.now found.old result found.new }
{
    let as_many = are_as_many(arguments.as_slice(), parameters);
    let Ok(values) = arguments_row(alloc, found, around, arguments, parameters) else {
        drop(given);
        return Err(Memory);
    };
    if !as_many {
        drop((values, given));
        return Ok(None);
    }
    let Some(values) = values else {
        drop(given);
        return Ok(None);
    };
    let call = call_made(alloc, name, given, values, definition)?;
    Ok(call)
}

/// Whether there are as many arguments as parameters (C11 6.5.2.2p2).
fn are_as_many(arguments: &[Argument], parameters: &[CType]) -> bool
    ensures { result ≡ spec.same_length arguments.now parameters.now }
{
    arguments.len() == parameters.len()
}

/// A call of an object with linkage, which is no function.
fn object_called(
    found: &mut Found,
    around: &Around<'_>,
    name: &Identifier,
    place: Pos,
) -> Result<Option<Operand>, Memory>
    ensures { (t : types.Shape) → types.is_function_shape t ≡ false → (args : List spec.Argument) → Walks (spec.linked_call name.now place args t) around.now found.old result found.new }
{
    let definition = number_in(around.objects, &name.text)?;
    tell_no_body(found, name, definition)?;
    found.tell(around, FaultKind::BadCall, place)
}

/// The number of the function of the unit that has this name, of which it is told where there is none.
fn defined_function(
    found: &mut Found,
    around: &Around<'_>,
    name: &Identifier,
) -> Result<Option<u32>, Memory>
    ensures definition { IfOk result (λ d. d ≡ scopes.number_in 0 around.now.functions.now name.now.text) }
    ensures faults { OnOk result (found.new.faults ≡ found.old.faults ++ spec.no_body name.now (scopes.number_in 0 around.now.functions.now name.now.text)) }
    ensures state { found.new.state ≡ found.old.state }
{
    let definition = number_in(around.functions, &name.text)?;
    tell_no_body(found, name, definition)?;
    Ok(definition)
}

/// Tells of a name with linkage of which the unit has no definition (C11 6.9p5); those of the library have theirs elsewhere.
fn tell_no_body(found: &mut Found, name: &Identifier, definition: Option<u32>) -> Result<(), Memory>
    ensures faults { OnOk result (found.new.faults ≡ found.old.faults ++ spec.no_body name.now definition) }
    ensures state { found.new.state ≡ found.old.state }
{
    let is_wanting = definition.is_none() && !is_library(&name.text);
    found.tell_if(is_wanting, FaultKind::NoBody, name.place)
}

/// Arguments as the parameters of these types are given them (C11 6.5.2.2p2), as far as there are both.
fn arguments_row(
    alloc: Global,
    found: &mut Found,
    around: &Around<'_>,
    arguments: Vec<Argument>,
    parameters: &[CType],
) -> Result<Option<Items<TExpr>>, Memory>
    ensures { Walks (spec.arguments_row arguments.items parameters.now) around.now found.old result found.new }
{
    let mut given = Some(Items::new(alloc));
    let mut left = parameters;
    for (place, argument) in arguments {
        let Some((ctype, behind)) = left.split_first() else {
            drop(argument);
            return Ok(given);
        };
        let Ok(value) = argument_row(alloc, found, around, place, ctype, argument) else {
            drop(given);
            return Err(Memory);
        };
        given = with_one_more(given, value)?;
        left = behind;
    }
    Ok(given)
}

/// An argument as the parameter of this type is given it; nothing is asked of one with a fault in it.
fn argument_row(
    alloc: Global,
    found: &mut Found,
    around: &Around<'_>,
    place: Pos,
    ctype: &CType,
    argument: Option<Operand>,
) -> Result<Option<TExpr>, Memory>
    ensures { Walks (scopes.asked argument (spec.given_row place ctype.now)) around.now found.old result found.new }
{
    let Some(argument) = argument else {
        return Ok(None);
    };
    given_row(alloc, found, around, place, ctype, argument)
}

/// The list with a value more, where each gives something.
fn with_one_more(
    list: Option<Items<TExpr>>,
    value: Option<TExpr>,
) -> Result<Option<Items<TExpr>>, Memory>
    ensures { IfOk result (λ r. r ≡ both_given list value) }
{
    let Some(list) = list else {
        drop(value);
        return Ok(None);
    };
    let Some(value) = value else {
        drop(list);
        return Ok(None);
    };
    Ok(Some(with_item(list, value)?))
}

/// The value of a call with these arguments, as many as there are parameters.
fn call_made(
    alloc: Global,
    name: &Identifier,
    given: CType,
    arguments: Items<TExpr>,
    definition: Option<u32>,
) -> Result<Option<Operand>, Memory>
    ensures { IfOk result (λ o. o ≡ made name.now given arguments definition) }
{
    match definition {
        Some(function) => Ok(Some(call_of(alloc, given, function, arguments)?)),
        None => {
            if is_library(&name.text) {
                drop(given);
                Ok(Some(library_call(alloc, &name.text, arguments)?))
            } else {
                Ok(Some(call_of(alloc, given, 0, arguments)?))
            }
        }
    }
}

/// A call of a function of the unit (C11 6.5.2.2p5).
fn call_of(
    alloc: Global,
    given: CType,
    function: u32,
    arguments: Items<TExpr>,
) -> Result<Operand, Memory>
    ensures { IfOk result (λ o. o ≡ spec.call_of given function arguments) }
{
    if is_void(&given) {
        drop(given);
        let void = plain(alloc, Base::Void);
        let base = TExpr::DroppedCall(void, function, arguments);
        return Ok(value(alloc, plain(alloc, Base::Void), base));
    }
    let ctype = unqualified(given);
    let Ok(again) = copied(alloc, &ctype) else {
        drop((ctype, arguments));
        return Err(Memory);
    };
    Ok(value(alloc, ctype, TExpr::Call(again, function, arguments)))
}

/// A call of the library: `getchar` has no argument, and `putchar` and `exit` have one.
fn library_call(alloc: Global, name: &Text, mut arguments: Items<TExpr>) -> Result<Operand, Memory>
    ensures { IfOk result (λ o. Some o ≡ spec.library_call name.now arguments) }
{
    if arguments.is_empty() {
        drop(arguments);
        let base = TExpr::GetChar(plain(alloc, Base::Int));
        return Ok(value(alloc, plain(alloc, Base::Int), base));
    }
    let argument = arguments.remove(0);
    drop(arguments);
    let argument = Boxed::new(alloc, argument)?;
    if name.as_slice() == PUTCHAR {
        let base = TExpr::PutChar(plain(alloc, Base::Int), argument);
        return Ok(value(alloc, plain(alloc, Base::Int), base));
    }
    let base = TExpr::Exit(plain(alloc, Base::Void), argument);
    Ok(value(alloc, plain(alloc, Base::Void), base))
}

/// The names of functions of the library (C11 7.21.7.6, 7.21.7.8, 7.22.4.4).
const GETCHAR: &[u8] = b"getchar";

const PUTCHAR: &[u8] = b"putchar";

const EXIT: &[u8] = b"exit";

/// Whether a name is that of a function of the library.
pub fn is_library(name: &Text) -> bool
    ensures { result ≡ spec.is_library name.now }
{
    let name = name.as_slice();
    name == GETCHAR || (name == PUTCHAR || name == EXIT)
}
