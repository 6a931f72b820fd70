//! The known bits of facts.

ghost use Rattle.std.specs.Prelude.{◌↔◌, IsTrue};
ghost use Rattle.term_form.specs.Bits.{HasBits};

use crate::facts::Facts;

/// Whether the known bits agree with the word.
pub fn has_bits(facts: &Facts, word: u32) -> bool
    ensures { IsTrue result ↔ HasBits facts.now word }
{
    word & facts.zeros == 0 && word & facts.ones == facts.ones
}
