//! The row of a name (C11 6.5.1p2): an enumeration constant, or the lvalue of an object,
//! by what the name stands for where it is used.

ghost use Rattle.std.specs.Prelude.{◌≡◌, IfOk, Some};
ghost use Rattle.c_tree.specs.declared.typed.expression.TExpr.TheVariants as x;
ghost use Rattle.c_typing.specs.declared.scope.Meaning.TheVariants as meaning;
ghost use Rattle.c_typing.specs.Operands as operands;
ghost use Rattle.c_typing.specs.Expressions as spec;
ghost use Rattle.c_type_walk.specs.Walks.{Walks};

use c_tree::typed::{Base, CType, Primary, TExpr};
use c_tree::{FaultKind, Identifier};
use c_type_rules::{copied, is_function, number, operand, plain};
use c_type_walk::{Around, Found, number_in};
use c_typing::{Form, Meaning, Operand};
use std::alloc::Global;
use word_ops::Memory;

/// What a name is as an operand: an enumeration constant, or the lvalue of an object (C11 6.5.1p2). A function's name stands
/// only before the `(` of its call.
///
/// # Errors
///
/// `Memory` where memory is wanting.
#[inline(never)]
pub fn name_row(
    alloc: Global,
    found: &mut Found,
    around: &Around<'_>,
    name: &Identifier,
) -> Result<Option<Operand>, Memory>
    ensures { Walks (spec.name_row name.now) around.now found.old result found.new }
{
    match found.meaning(&name.text) {
        None | Some(Meaning::TypedefOf(_)) => {
            found.tell(around, FaultKind::Undeclared, name.place)
        }
        Some(Meaning::EnumeratorOf(value)) => {
            Ok(Some(number(alloc, plain(alloc, Base::Int), *value)?))
        }
        Some(
            Meaning::Automatic {
                ctype,
                place,
                number,
                in_register,
            },
        ) => {
            let form = Form::Named {
                place: *place,
                number: *number,
                in_register: *in_register,
            };
            Ok(Some(object(alloc, form, ctype, Primary::Address(*place))?))
        }
        Some(Meaning::Static(ctype, number)) => {
            Ok(Some(object(alloc, Form::Place, ctype, Primary::Static(*number))?))
        }
        Some(Meaning::Linked(ctype)) => {
            let ctype = copied(alloc, ctype)?;
            let object = linked_name(alloc, found, around, name, &ctype);
            drop(ctype);
            object
        }
        Some(Meaning::Unknown) => Ok(None),
    }
}

/// The name of something with linkage.
fn linked_name(
    alloc: Global,
    found: &mut Found,
    around: &Around<'_>,
    name: &Identifier,
    ctype: &CType,
) -> Result<Option<Operand>, Memory>
    ensures { Walks (spec.meant name.now (Some (meaning.Linked ctype.now))) around.now found.old result found.new }
{
    if is_function(ctype) {
        return found.tell(around, FaultKind::FunctionUse, name.place);
    }
    let definition = number_in(around.objects, &name.text)?;
    found.tell_if(definition.is_none(), FaultKind::NoBody, name.place)?;
    let number = definition.unwrap_or(0);
    Ok(Some(object(alloc, Form::Place, ctype, Primary::Static(number))?))
}

/// The lvalue of an object, by its address.
fn object(alloc: Global, form: Form, ctype: &CType, address: Primary) -> Result<Operand, Memory>
    ensures { IfOk result (λ o. o ≡ operands.operand form ctype.now (x.Primary ctype.now address)) }
{
    let ctype_of_base = copied(alloc, ctype)?;
    let Ok(ctype) = copied(alloc, ctype) else {
        drop(ctype_of_base);
        return Err(Memory);
    };
    Ok(operand(alloc, form, ctype, TExpr::Primary(ctype_of_base, address)))
}
