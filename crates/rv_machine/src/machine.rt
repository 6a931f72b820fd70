//! Machines as data, their readers, and one stretch of a run: instructions up to one that stops.
ghost use Rattle.std.specs.Prelude.{◌≡◌, ◌<◌, ◌≤◌, IfSome, IsNone, IsSome};
ghost use Rattle.rv_machine.specs.Pause.{Moves, requested, stopped};
ghost use Rattle.rv_machine.specs.Reading.{word_at};
ghost use Rattle.rv_machine.specs.Run.{answered};
ghost use Rattle.rv_machine.specs.State.{register_of};
ghost use Rattle.rv_machine.specs.Step.{step_of};

use crate::bytes::{text_word, word_in};
use crate::decoded::Decoded;
use crate::pc::Pc;
use crate::registers::Registers;
use crate::request::Request;
use crate::stretch::{Stop, run_stretch};
use std::marker::Model;

/// A loaded image: its text, its registers, its pc and its memory.
///
/// Contracts see the words of the text and the state. The text is kept decoded beside its words.
#[derive(Drop)]
pub struct Machine {
    pub(crate) text: Vec<u32>,
    pub(crate) code: Vec<Decoded>,
    pub(crate) registers: Registers,
    pub(crate) pc: Pc,
    pub(crate) base: u32,
    pub(crate) memory: Vec<u8>,
}

impl Model for Machine {
    ghost use Rattle.rv_machine.specs.State.{Loaded};
    ghost use Rattle.rv_machine.specs.Decoded.{IsConsistent};

    ghost Value = { Loaded };

    ghost view = { λ m. record { text = m.text.items; state = record { registers = m.registers; pc = m.pc; base = m.base; memory = m.memory.items } } };

    ghost invariant = { λ m. IsConsistent m.text.items m.code.items m.base m.memory.items };
}

/// How many steps were taken, and why the machine stopped, if it did.
#[derive(Clone, Copy)]
pub struct Advance {
    pub steps: u64,
    pub stop: Option<Stop>,
}

impl Machine {
    /// The word of a register, x0 to x31. Takes no memory.
    pub fn register(&self, number: u32) -> u32
        requires { number < 32 }
        ensures { result ≡ register_of self.now.state number }
    {
        self.registers.get(number as u8)
    }

    /// The address of the instruction to come. Takes no memory.
    pub fn pc(&self) -> u32
        ensures { result ≡ self.now.state.pc }
    {
        self.pc.address()
    }

    /// The word in the four bytes at an address, or `None` where they are not wholly in the text, or
    /// wholly in the data, the gap and the stack. Takes no memory.
    pub fn word(&self, address: u32) -> Option<u32>
        ensures { result ≡ word_at self.now address }
    {
        let at = address as usize;
        let text = self.text.as_slice();
        if 0x10000 <= at && at + 4 <= 0x10000 + 4 * text.len() {
            return Some(text_word(text, at - 0x10000));
        }
        let base = self.base as usize;
        let memory = self.memory.as_slice();
        if base <= at && at + 4 <= base + memory.len() {
            return Some(word_in(memory, at - base));
        }
        None
    }

    /// Takes at most so many steps, up to the first that traps or calls the environment.
    pub(crate) fn advance(&mut self, steps: u64) -> Advance
        ensures moves { Moves self.old.text result.steps self.old.state self.new.state }
        ensures text { self.new.text ≡ self.old.text }
        ensures all { IsNone result.stop → result.steps ≡ steps }
        ensures some { IsSome result.stop → result.steps < steps }
        ensures stop { IfSome result.stop (λ stop. step_of self.new.text self.new.state ≡ stopped stop self.new.state) }
    {
        let stretch = run_stretch(
            self.code.as_slice(),
            self.pc,
            &mut self.registers,
            self.memory.as_mut_slice(),
            self.base,
            steps,
        );
        self.pc = stretch.pc;
        Advance {
            steps: stretch.steps,
            stop: stretch.stop,
        }
    }

    /// What a machine that stopped asks of its environment.
    pub(crate) fn request(&self, stop: Stop) -> Request
        ensures { requested result ≡ stopped stop self.now.state }
    {
        let Stop::Call = stop else {
            return Request::Trap(self.pc());
        };
        match self.register(17) {
            1 => Request::Byte,
            2 => Request::Put((self.register(10) % 256) as u8),
            3 => Request::Exit((self.register(10) % 256) as u8),
            4 => Request::Deep,
            _ => Request::Trap(self.pc()),
        }
    }

    /// Goes on past a call of the environment, with its answer in x10.
    pub(crate) fn answer(&mut self, word: u32)
        ensures text { self.new.text ≡ self.old.text }
        ensures state { self.new.state ≡ answered self.old.state word }
    {
        self.registers.set(10, word);
        self.pc = self.pc.following();
    }
}
