//! The registers, with a place past the last for the writes to x0.
ghost use Rattle.std.specs.Prelude.{◌≡◌, ◌%◌, ◌<◌, ◌≤◌, length, replicate};
ghost use Rattle.rv_machine.specs.State.{register_in, with_register};

use std::marker::Model;

/// The words of x0 to x31.
///
/// x0 is never written: a write to it goes to a place past the 32 registers, so that no write has to
/// look at its number.
#[derive(Debug, Drop)]
pub struct Registers {
    words: [u32; 33],
}

impl Model for Registers {
    ghost use Rattle.std.specs.Prelude.{◌≡◌, List, ℕ, take, slice_index};

    ghost Value = { List ℕ };

    ghost view = { λ r. take 32 r.words };

    ghost invariant = { λ r. slice_index r.words 0 ≡ 0 };
}

impl Registers {
    /// All registers are 0.
    pub fn new() -> Self
        ensures { result ≡ replicate 32 0 }
    {
        Registers { words: [0; 33] }
    }

    /// The word of a register.
    #[inline(always)]
    pub fn get(&self, number: u8) -> u32
        requires { number < 32 }
        ensures { result ≡ register_in self.now number }
    {
        self.words[number as usize]
    }

    /// Writes a word to the register of a slot: its number, or 32 for x0.
    #[inline(always)]
    pub fn set(&mut self, slot: u8, word: u32)
        requires low { 1 ≤ slot }
        requires high { slot ≤ 32 }
        ensures { self.new ≡ with_register self.old (slot % 32) word }
    {
        self.words[slot as usize] = word;
    }
}
