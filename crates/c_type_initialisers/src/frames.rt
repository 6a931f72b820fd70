//! The aggregates that are being filled, the innermost last (C11 6.7.9p17 to p20).
//! No walk of trees: the part that the next item initialises.

ghost use Rattle.std.specs.Prelude.{◌≡◌, IfOk, OnOk};
ghost use Rattle.c_type_initialisers.specs.Stacks.{stack};
ghost use Rattle.c_typing.specs.OfInitialisers as spec;

use crate::parts::next_part;
use c_layout::Tags;
use c_typing::{Frame, Piece};
use std::alloc::Global;
use word_ops::{Items, Memory};

/// The next part of the innermost aggregate that has one left, which is passed then; those that have none left are closed.
/// `None` exactly where none of them has, and all are closed then.
pub(crate) fn next_piece(
    alloc: Global,
    tags: &Tags,
    frames: &mut Items<Frame>,
) -> Result<Option<Piece>, Memory>
    ensures piece { IfOk result (λ p. p ≡ (spec.next_piece tags.now (stack frames.old)).0) }
    ensures open { OnOk result (stack frames.new ≡ (spec.next_piece tags.now (stack frames.old)).1) }
{
    while let Some(frame) = frames.pop() {
        let Ok(part) = next_part(alloc, tags, &frame) else {
            drop(frame);
            return Err(Memory);
        };
        let Some(piece) = part else {
            drop(frame);
            continue;
        };
        let Ok(()) = frames.push(passing(frame)) else {
            drop(piece);
            return Err(Memory);
        };
        return Ok(Some(piece));
    }
    Ok(None)
}

fn passing(frame: Frame) -> Frame
    ensures { result ≡ spec.passing frame }
{
    Frame {
        passed: frame.passed.saturating_add(1),
        ..frame
    }
}

/// How many parts of the outermost aggregate were passed.
pub(crate) fn passed_of(frames: &Items<Frame>) -> u64
    ensures { result ≡ spec.passed_of (stack frames.now) }
{
    match frames.get(0) {
        Some(outermost) => outermost.passed,
        None => 0,
    }
}
