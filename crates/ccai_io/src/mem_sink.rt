//! A sink in memory with a room of its own, of which chosen calls fail.
ghost use Rattle.std.specs.Prelude.{◌≡◌, ◌∷◌, ◌++◌, [], ◌≤◌, IfOk, OnErr, OnOk};

use crate::calls::planned_at;
use crate::outside::{Failed, Sink};
use std::alloc::Global;
use std::marker::Model;
use word_ops::Memory;

/// A sink of bytes in memory, of which chosen calls fail, and those for which its room does not
/// suffice.
///
/// Contracts see the bytes that are held, how many it holds at most, the number of calls of `put` so
/// far, the numbers of the calls that fail with how many bytes each keeps, and the count of faults.
#[derive(Debug, Drop)]
pub struct MemSink {
    held: Vec<u8>,
    room: usize,
    calls: u64,
    failing: Vec<(u64, usize)>,
    faults: u64,
}

impl Model for MemSink {
    ghost use Rattle.std.specs.Prelude.{◌≤◌, length, vec_capacity};
    ghost use Rattle.ccai_io.specs.MemSink.{SinkState};

    ghost Value = { SinkState };

    ghost view = { λ sink. record {
      held = sink.held.items;
      room = sink.room;
      calls = sink.calls;
      failing = sink.failing.items;
      faults = sink.faults;
    } };

    ghost invariant = { λ sink. (length sink.held.items ≤ sink.room) × (sink.room ≤ vec_capacity sink.held) };
}

impl MemSink {
    ghost use Rattle.ccai_io.specs.MemSink.{empty_sink};

    /// A sink that holds no byte yet and `room` bytes at most. It takes their memory here.
    ///
    /// # Errors
    ///
    /// `Memory` where memory for the room is wanting.
    pub fn new(alloc: Global, room: usize) -> Result<Self, Memory>
        ensures { IfOk result (λ sink. sink ≡ empty_sink room) }
    {
        Ok(MemSink {
            held: Vec::with_capacity(alloc, room)?,
            room,
            calls: 0,
            failing: Vec::new(alloc),
            faults: 0,
        })
    }

    /// Lets the call of `put` of this number fail after it has kept the first `kept` bytes of its
    /// piece, or as many of these as the piece has and the room still holds. The first call has
    /// number 1. Where a call is listed twice, the first entry counts.
    ///
    /// # Errors
    ///
    /// `Memory` where memory for the entry is wanting; nothing has changed then.
    pub fn fail_at(&mut self, call: u64, kept: usize) -> Result<(), Memory>
        ensures listed { OnOk result (self.new ≡ record self.old { failing = self.old.failing ++ (call, kept) ∷ [] }) }
        ensures kept { OnErr result (self.new ≡ self.old) }
    {
        self.failing.push((call, kept))?;
        Ok(())
    }

    /// Lends the bytes that are held.
    pub fn bytes(&self) -> &[u8]
        ensures { result.now ≡ self.now.held }
    {
        &self.held
    }
}

impl Sink for MemSink {
    ghost use Rattle.std.specs.Prelude.{Some, is_err};
    ghost use Rattle.ccai_io.specs.Outside.{Appends, AppendsPrefix, HasCause};
    ghost use Rattle.ccai_io.specs.MemSink.{after_put, fails};

    ghost held = { λ sink. Some sink.held };

    ghost faults = { λ sink. sink.faults };

    /// Puts a piece behind the bytes that are held.
    ///
    /// # Errors
    ///
    /// `Failed` exactly at the calls that `fail_at` listed, which keep as many bytes of the piece as
    /// it says, and at the other calls whose piece the room does not hold, which keep what fits.
    fn put(&mut self, piece: &[u8]) -> Result<(), Failed>
        ensures put { OnOk result (Appends (Some self.old.held) (Some self.new.held) piece.now) }
        ensures partly { OnErr result (AppendsPrefix (Some self.old.held) (Some self.new.held) piece.now) }
        ensures cause { HasCause self.old.faults self.new.faults result }
        ensures failed { is_err result ≡ fails self.old piece.now }
        ensures after { self.new ≡ after_put self.old piece.now }
    {
        let planned = planned_at(&self.failing, self.calls);
        let fitting = piece.len().min(self.room - self.held.len());
        let kept = planned.map_or(fitting, |kept| kept.min(fitting));
        self.calls = self.calls.saturating_add(1);
        self.held.extend_from_slice(&piece[..kept]).unwrap();
        if planned.is_some() || fitting < piece.len() {
            self.faults = self.faults.saturating_add(1);
            return Err(Failed);
        }
        Ok(())
    }
}
