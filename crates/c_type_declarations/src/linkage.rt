//! Names with linkage (C11 6.2.2): what their declarations have to agree with, and what is kept of them.
//! Rows: told a name and a type, they compare and keep them.

ghost use Rattle.std.specs.Prelude.{◌≡◌, ◌++◌, ◌∷◌, [], IfOk, OnOk};
ghost use Rattle.std.specs.Option.{option_copied};
ghost use Rattle.c_typing.specs.Declarations as spec;
ghost use Rattle.c_typing.specs.Scopes as scopes;
ghost use Rattle.c_typing.specs.Types as types;
ghost use Rattle.c_tree.specs.declared.refusal.FaultKind.TheVariants as kind;
ghost use Rattle.c_type_walk.specs.Walks.{fixed};
ghost use Rattle.c_type_declarations.specs.Linkage as parts;

use crate::made::one;
use crate::second_declarations::{agrees, allows_linked, composed, is_defined};
use c_tree::typed::{Base, CType, Derived};
use c_tree::{FaultKind, Identifier};
use c_type_expressions::is_library;
use c_type_rules::{compatible, copied, derived_from, plain};
use c_type_walk::{Around, Found, copied_text};
use c_typing::{Linkage, Meaning};
use std::alloc::Global;
use word_ops::{Items, Memory, Text};

/// The name of the function with which a program begins (C11 5.1.2.2.1).
pub const MAIN: &[u8] = b"main";

const GETCHAR: &[u8] = b"getchar";

const PUTCHAR: &[u8] = b"putchar";

/// The type of a function of this value and these parameters (C11 6.7.6.3).
fn function_type(value: CType, parameters: Items<CType>) -> Result<CType, Memory>
    ensures { IfOk result (λ t. t ≡ spec.function_type value parameters) }
{
    derived_from(value, Derived::Function(parameters))
}

/// The type of a function of this value that takes an `int`.
fn takes_int(alloc: Global, value: Base) -> Result<CType, Memory>
    ensures { IfOk result (λ t. t ≡ spec.function_type (types.plain value) (types.int ∷ [])) }
{
    let parameters = one(alloc, plain(alloc, Base::Int))?;
    function_type(plain(alloc, value), parameters)
}

/// The type of the function of the library of this name (C11 7.21.7.6, 7.21.7.8, 7.22.4.4).
fn library_type(alloc: Global, name: &Text) -> Result<CType, Memory>
    ensures { IfOk result (λ t. t ≡ spec.library_type name.now) }
{
    if name.as_slice() == GETCHAR {
        function_type(plain(alloc, Base::Int), Items::new(alloc))
    } else if name.as_slice() == PUTCHAR {
        takes_int(alloc, Base::Int)
    } else {
        takes_int(alloc, Base::Void)
    }
}

/// Whether a library name is declared with another type than its own, or defined (C11 7.1.3p1).
fn breaks_library(alloc: Global, name: &Text, defines: bool, ctype: &CType) -> Result<bool, Memory>
    ensures { IfOk result (λ b. b ≡ spec.breaks_library name.now defines ctype.now) }
{
    if !is_library(name) {
        return Ok(false);
    }
    let library = library_type(alloc, name)?;
    let fits = compatible(ctype, &library);
    drop(library);
    Ok(defines || !fits)
}

/// Whether a declaration of a name with linkage may not stand behind those before it: `own` is what its scope has declared
/// by the name (C11 6.7p3, p4, 6.9p3, p5).
///
/// # Errors
///
/// `Memory` where memory is wanting.
fn is_refused(
    alloc: Global,
    found: &Found,
    own: Option<&Meaning>,
    name: &Text,
    defines: bool,
    ctype: &CType,
) -> Result<bool, Memory>
    ensures { IfOk result (λ b. b ≡ parts.breaks_linkage found.now.state (option_copied own.entry) name.now defines ctype.now) }
{
    let linkage = found.linkage(name);
    Ok(
        !allows_linked(ctype, own)
            || (!agrees(ctype, linkage)
                || ((defines && is_defined(linkage))
                    || breaks_library(alloc, name, defines, ctype)?)),
    )
}

/// `main` takes nothing and returns an `int` (C11 5.1.2.2.1p1).
fn is_wrong_main(
    alloc: Global,
    around: &Around<'_>,
    name: &Text,
    ctype: &CType,
) -> Result<bool, Memory>
    ensures { IfOk result (λ b. b ≡ parts.is_wrong_main (fixed around.now) name.now ctype.now) }
{
    if !(around.at_file_level && name.as_slice() == MAIN) {
        return Ok(false);
    }
    let wanted = function_type(plain(alloc, Base::Int), Items::new(alloc))?;
    let fits = compatible(ctype, &wanted);
    drop(wanted);
    Ok(!fits)
}

/// Tells the faults of a declaration of a name with linkage, which stands where it may not, or declares `main` with
/// another type than its own.
///
/// # Errors
///
/// `Memory` where memory is wanting.
fn tell_linked(
    alloc: Global,
    found: &mut Found,
    around: &Around<'_>,
    name: &Identifier,
    refused: bool,
    ctype: &CType,
) -> Result<(), Memory>
    ensures faults { OnOk result (found.new.faults ≡ found.old.faults ++ (scopes.fault_if refused kind.Redeclared name.now.place ++ spec.wrong_main (fixed around.now) name.now ctype.now)) }
    ensures state { found.new.state ≡ found.old.state }
{
    let wrong = is_wrong_main(alloc, around, &name.text, ctype)?;
    found.tell_if(refused, FaultKind::Redeclared, name.place)?;
    found.tell_if(wrong, FaultKind::NoMain, name.place)
}

/// Tells the faults of a declaration of a name with linkage in this scope.
///
/// # Errors
///
/// `Memory` where memory is wanting.
pub fn linked_faults(
    alloc: Global,
    found: &mut Found,
    around: &Around<'_>,
    name: &Identifier,
    defines: bool,
    ctype: &CType,
) -> Result<(), Memory>
    ensures faults { OnOk result (found.new.faults ≡ found.old.faults ++ spec.linked_faults (fixed around.now) found.old.state name.now defines ctype.now) }
    ensures state { found.new.state ≡ found.old.state }
{
    let own = found.own_meaning(around, &name.text);
    let refused = is_refused(alloc, found, own, &name.text, defines, ctype)?;
    tell_linked(alloc, found, around, name, refused, ctype)
}

/// What is kept of a declaration of a name with linkage: the type that all its declarations tell, and whether one of them
/// defines it.
///
/// # Errors
///
/// `Memory` where memory is wanting.
fn linkage_of(
    alloc: Global,
    found: &Found,
    name: &Text,
    defines: bool,
    ctype: CType,
) -> Result<Linkage, Memory>
    ensures { IfOk result (λ l. l ≡ parts.linkage_of found.now.state name.now defines ctype) }
{
    let before = found.linkage(name);
    Ok(Linkage {
        defined: defines || is_defined(before),
        ctype: composed(alloc, ctype, before)?,
    })
}

/// Keeps a declaration of a name with linkage, and gives the type that all its declarations tell.
///
/// # Errors
///
/// `Memory` where memory is wanting.
fn keep_linkage(
    alloc: Global,
    found: &mut Found,
    name: &Text,
    defines: bool,
    ctype: CType,
) -> Result<CType, Memory>
    ensures given { IfOk result (λ t. t ≡ spec.composed ctype (scopes.latest found.old.state.linked name.now)) }
    ensures faults { found.new.faults ≡ found.old.faults }
    ensures state { OnOk result (found.new.state ≡ parts.kept_state name.now defines ctype found.old.state) }
{
    let linkage = linkage_of(alloc, found, name, defines, ctype)?;
    let Ok(told) = copied(alloc, &linkage.ctype) else {
        drop(linkage);
        return Err(Memory);
    };
    let Ok(()) = add_linkage(alloc, found, name, linkage) else {
        drop(told);
        return Err(Memory);
    };
    Ok(told)
}

/// Keeps what the declarations of a name with linkage tell, behind what was kept before.
fn add_linkage(
    alloc: Global,
    found: &mut Found,
    name: &Text,
    linkage: Linkage,
) -> Result<(), Memory>
    ensures faults { found.new.faults ≡ found.old.faults }
    ensures state { OnOk result (found.new.state ≡ record found.old.state { linked = found.old.state.linked ++ (name.now, linkage) ∷ [] }) }
{
    let Ok(name) = copied_text(alloc, name) else {
        drop(linkage);
        return Err(Memory);
    };
    found.state.linked.insert(name, linkage)
}

/// Declares a name with linkage, with the type that all its declarations tell.
///
/// # Errors
///
/// `Memory` where memory is wanting.
pub fn linked(
    alloc: Global,
    found: &mut Found,
    name: &Text,
    defines: bool,
    ctype: CType,
) -> Result<(), Memory>
    ensures faults { found.new.faults ≡ found.old.faults }
    ensures state { OnOk result (found.new.state ≡ parts.linked_state name.now defines ctype found.old.state) }
{
    let told = keep_linkage(alloc, found, name, defines, ctype)?;
    found.declare(alloc, name, Meaning::Linked(told))
}
