//! What is fixed around a construct.
//! No walk and no row: what both are told.

ghost use Rattle.std.specs.Prelude.{◌≡◌, length};
ghost use Rattle.c_type_walk.specs.Walks.{fixed};

use crate::found::Found;
use c_tree::typed::CType;
use indexed_list::IndexedList;
use word_ops::Text;

/// What is fixed around a construct.
#[derive(Clone, Copy)]
pub struct Around<'a> {
    /// the functions that the unit defines, in the order of their definitions
    pub functions: &'a IndexedList<Text>,
    /// the file-level objects that it defines, in the order of their first definitions
    pub objects: &'a IndexedList<Text>,
    /// at file level, and not in a function
    pub at_file_level: bool,
    /// how many ordinary identifiers were visible where the present scope begins
    pub names_from: usize,
    /// how many tags
    pub tags_from: usize,
    /// the place of the first object of the present block among those in scope
    pub own_from: u32,
    /// the place of the first object of a block in it
    pub inner_from: u32,
    /// the number in the function of the first object of the present block
    pub numbers_from: u32,
    /// whether `break` may stand here (C11 6.8.6.3p1)
    pub may_break: bool,
    /// whether `continue` may (C11 6.8.6.2p1)
    pub may_continue: bool,
    /// the type of the value of the function
    pub result: &'a CType,
}

impl<'a> Around<'a> {
    /// The same in a scope that begins here (C11 6.2.1p4).
    pub fn in_scope(&self, found: &Found) -> Around<'a>
        ensures { fixed result ≡ record (fixed self.now) { names_from = length found.now.state.names; tags_from = length found.now.state.tags } }
    {
        Around {
            names_from: found.state.names.mark(),
            tags_from: found.state.tags.mark(),
            ..*self
        }
    }
}
