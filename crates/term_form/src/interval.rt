//! The two intervals of facts: the word read as signed, and read as unsigned.

ghost use Rattle.std.specs.Prelude.{◌↔◌, IsTrue};
ghost use Rattle.term_form.specs.Interval.{IsBetween};

use crate::facts::Facts;

/// Whether both intervals hold the word.
pub fn is_between(facts: &Facts, word: u32) -> bool
    ensures { IsTrue result ↔ IsBetween facts.now word }
{
    let signed = word.cast_signed();
    facts.low <= signed && signed <= facts.high && facts.least <= word && word <= facts.most
}
