//! A source in memory of which chosen calls fail.
ghost use Rattle.std.specs.Prelude.{◌≡◌, ◌∷◌, ◌++◌, [], IfOk, OnErr, OnOk};

use crate::byte_queue::ByteQueue;
use crate::calls::is_listed;
use crate::outside::{Failed, Source};
use std::alloc::Global;
use std::marker::Model;
use word_ops::Memory;

/// A source of bytes in memory, of which chosen calls fail.
///
/// Contracts see the bytes that are left, the number of calls of `next` so far, the numbers of the
/// calls that fail, and the count of faults.
#[derive(Debug, Drop)]
pub struct MemSource {
    left: ByteQueue,
    calls: u64,
    failing: Vec<u64>,
    faults: u64,
}

impl Model for MemSource {
    ghost use Rattle.ccai_io.specs.MemSource.{SourceState};

    ghost Value = { SourceState };

    ghost view = { λ source. record {
      left = source.left;
      calls = source.calls;
      failing = source.failing.items;
      faults = source.faults;
    } };
}

impl MemSource {
    ghost use Rattle.ccai_io.specs.MemSource.{source_of};

    /// A source of these bytes, of which no call fails.
    pub fn new(alloc: Global, bytes: Vec<u8>) -> Self
        ensures { result ≡ source_of bytes.items }
    {
        MemSource {
            left: ByteQueue::new(bytes),
            calls: 0,
            failing: Vec::new(alloc),
            faults: 0,
        }
    }

    /// Lets the call of `next` of this number fail. The first call has number 1.
    ///
    /// # Errors
    ///
    /// `Memory` where memory for the number is wanting; nothing has changed then.
    pub fn fail_at(&mut self, call: u64) -> Result<(), Memory>
        ensures listed { OnOk result (self.new ≡ record self.old { failing = self.old.failing ++ call ∷ [] }) }
        ensures kept { OnErr result (self.new ≡ self.old) }
    {
        self.failing.push(call)?;
        Ok(())
    }
}

impl Source for MemSource {
    ghost use Rattle.std.specs.Prelude.{Some, is_err, slice_get};
    ghost use Rattle.ccai_io.specs.Calls.{is_listed as is_listed_after};
    ghost use Rattle.ccai_io.specs.Outside.{HasCause, Takes};
    ghost use Rattle.ccai_io.specs.MemSource.{after_next};

    ghost left = { λ source. Some source.left };

    ghost faults = { λ source. source.faults };

    /// The next byte, or `None` at the end of the bytes.
    ///
    /// # Errors
    ///
    /// `Failed` exactly at the calls that `fail_at` listed; no byte is taken then.
    fn next(&mut self) -> Result<Option<u8>, Failed>
        ensures taken { IfOk result (λ byte. Takes (Some self.old.left) (Some self.new.left) byte) }
        ensures kept { OnErr result (Some self.new.left ≡ Some self.old.left) }
        ensures cause { HasCause self.old.faults self.new.faults result }
        ensures failed { is_err result ≡ is_listed_after self.old.failing self.old.calls }
        ensures byte { IfOk result (λ byte. byte ≡ slice_get self.old.left 0) }
        ensures after { self.new ≡ after_next self.old }
    {
        let fails = is_listed(&self.failing, self.calls);
        self.calls = self.calls.saturating_add(1);
        if fails {
            self.faults = self.faults.saturating_add(1);
            return Err(Failed);
        }
        Ok(self.left.take())
    }
}
