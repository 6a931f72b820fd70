//! A fault of typing: which constraint of C11 is broken, and at which token.
//! The kinds are those of c_tree.

use c_tree::{FaultKind, Pos};

/// A fault of a source.
#[derive(Clone, Copy, Debug)]
pub struct Fault {
    /// which constraint is broken
    pub kind: FaultKind,
    /// at which token
    pub place: Pos,
}
