//! What stands next to the name of a declarator.
//! A parameter list there makes what stands before a `{` a definition.

ghost use Rattle.std.specs.Prelude.{◌≡◌, map};
ghost use Rattle.c_tree.specs.Levels.Names.{Names, in_row};
ghost use Rattle.c_tree.specs.Levels.Facts.{nearest, Alone};
ghost use Rattle.c_tree.specs.Levels.Trees.{declarator_level, direct_level, declarator_suffix_level};
ghost use Rattle.c_unit_parser.specs.Beside.{Tells};

use c_tree::{Declarator, DeclaratorSuffix, Direct, Parameter, Pointer};

/// What stands next to the name of a declarator.
#[derive(Clone, Copy)]
pub enum Beside<'a> {
    /// Nothing.
    Alone,
    /// A pointer or an array.
    Other,
    /// A parameter list with these parameters.
    Listing(&'a [Parameter]),
}

fn listed(suffix: &DeclaratorSuffix) -> Beside<'_>
    ensures { (names : Names) → Tells result (declarator_suffix_level suffix.now names).0.beside }
{
    match suffix {
        DeclaratorSuffix::Array(_, _) | DeclaratorSuffix::ArrayOf(_, _, _) => Beside::Other,
        DeclaratorSuffix::Empty(_, _) | DeclaratorSuffix::Void(_, _, _) => Beside::Listing(&[]),
        DeclaratorSuffix::Parameters(_, all, _) => Beside::Listing(all.as_slice()),
    }
}

// Behind the brackets the first suffix stands next to the name, else a pointer.
fn next_to<'a>(suffixes: &'a [DeclaratorSuffix], pointers: &[Pointer]) -> Beside<'a>
    ensures { (names : Names) → Tells result (nearest Alone (in_row (map declarator_suffix_level suffixes.now) names).0 pointers.now) }
{
    match suffixes {
        [first, ..] => listed(first),
        [] => {
            if pointers.is_empty() {
                Beside::Alone
            } else {
                Beside::Other
            }
        }
    }
}

#[cycle(beside)]
fn in_brackets(middle: &Direct) -> Beside<'_>
    ensures { (names : Names) → Tells result (direct_level middle.now names).0.beside }
{
    match middle {
        Direct::Nothing | Direct::Named(_) => Beside::Alone,
        Direct::Grouped(_, inner, _) => beside_name(inner.get()),
    }
}

/// What stands next to the name of a declarator, brackets round the name alone aside (C11 6.7.6, 6.9.1p2).
#[cycle(beside)]
pub fn beside_name(tree: &Declarator) -> Beside<'_>
    ensures { (names : Names) → Tells result (declarator_level tree.now names).0.beside }
{
    match in_brackets(&tree.direct) {
        Beside::Alone => next_to(tree.suffixes.as_slice(), tree.pointers.as_slice()),
        Beside::Other => Beside::Other,
        Beside::Listing(all) => Beside::Listing(all),
    }
}
