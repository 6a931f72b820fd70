//! Types declarations (C11 6.7): what each declarator with its initialiser declares, and where.
//!
//! `declaration_row` is the walk over one declaration. Below it stand the modules of the kinds of objects: `automatic`,
//! `static_objects` and `linked_objects`, over `linkage`, `second_declarations`, `objects` and `starts`. Each function that
//! walks computes one row of the definitions of `c_typing`, and its contract says which; `counting` tells from declarations
//! alone which of them declare objects.
#![tactic(auto)]

mod automatic;
mod counting;
mod declarations;
mod linkage;
mod linked_objects;
mod made;
mod objects;
mod second_declarations;
mod starts;
mod static_objects;

pub use counting::{FunctionNames, automatic_count, defined_objects, name_text};
pub use declarations::declaration_row;
pub use linkage::{MAIN, linked, linked_faults};
pub use made::{both, one};
pub use objects::{is_addressed, object_of, static_object};
pub use second_declarations::{allows_untyped_linked, is_defined};
