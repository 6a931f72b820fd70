//! A source in memory that never fails.
ghost use Rattle.std.specs.Prelude.{◌≡◌, IfOk, OnErr};

use crate::byte_queue::ByteQueue;
use crate::outside::{Failed, Source};
use std::alloc::Global;
use std::marker::Model;

/// A source of bytes in memory that never fails, which contracts see as the list of the bytes that
/// are left.
#[derive(Debug, Drop)]
pub struct SureSource {
    left: ByteQueue,
}

impl Model for SureSource {
    ghost use Rattle.std.specs.Prelude.{List, ℕ};

    ghost Value = { List ℕ };

    ghost view = { λ source. source.left };
}

impl SureSource {
    /// A source of these bytes.
    pub fn new(_alloc: Global, bytes: Vec<u8>) -> Self
        ensures { result ≡ bytes.items }
    {
        SureSource {
            left: ByteQueue::new(bytes),
        }
    }
}

impl Source for SureSource {
    ghost use Rattle.std.specs.Prelude.{IsOkAnd, Some, drop, slice_get};
    ghost use Rattle.ccai_io.specs.Outside.{HasCause, Takes};

    ghost left = { λ source. Some source };

    ghost faults = { λ source. 0 };

    /// The next byte, or `None` at the end of the bytes. It never fails.
    fn next(&mut self) -> Result<Option<u8>, Failed>
        ensures taken { IfOk result (λ byte. Takes (Some self.old) (Some self.new) byte) }
        ensures kept { OnErr result (Some self.new ≡ Some self.old) }
        ensures cause { HasCause 0 0 result }
        ensures byte { IsOkAnd result (λ byte. byte ≡ slice_get self.old 0) }
        ensures after { self.new ≡ drop 1 self.old }
    {
        Ok(self.left.take())
    }
}
