//! What tells the terms of a table apart: nodes that are shared are their own keys, and others have their place beside
//! them.

ghost use Rattle.std.specs.Prelude.{◌≡◌};
ghost use Rattle.term_domain.specs.Keys.{own_place, own_place_of_root};

use term_form::{Node, Root};

/// What tells terms apart: the node, and for a node that several terms may have, the place of its term.
#[derive(Clone, Copy, Debug, PartialEq, Eq, Hash)]
pub struct Key {
    pub node: Node,
    pub own: Option<usize>,
}

/// The key of a term at a place.
pub fn key_of(node: Node, place: usize) -> Key
    ensures node { result.node ≡ node }
    ensures own { result.own ≡ own_place node place }
{
    let own = match node {
        Node::Konst(_) | Node::Operate(_, _, _) => None,
        Node::Root(root) => own_root(root, place),
        Node::Load(_, _) | Node::Phi => Some(place),
    };
    Key { node, own }
}

// Each object has one term.
fn own_root(root: Root, place: usize) -> Option<usize>
    ensures { result ≡ own_place_of_root root place }
{
    match root {
        Root::Global(_) | Root::Local(_) => None,
        Root::Param(_) | Root::Got | Root::Called => Some(place),
    }
}
