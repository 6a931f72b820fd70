//! Reading a source word by word, with the place of what does not fit.
ghost use Rattle.std.specs.Prelude.{◌≡◌, ◌≢◌, ◌≤◌, ◌∷◌, ℕ, List, IfNone, [], ◌↔◌, IsTrue, IfSome, decimal};
ghost use Rattle.std.specs.Bool.{OnFalse, OnTrue};
ghost use Rattle.first_form.specs.Lexemes.{lexemes};

use crate::constant::constant_of;
use crate::lexeme::{past_blanks, split_lexeme};
use crate::place::place_past;
use c_tree::Pos;
use std::marker::Model;

/// What is left of a source, which contracts see as its lexemes.
#[derive(Drop)]
pub(crate) struct Cursor<'a> {
    source: &'a [u8],
    rest: &'a [u8],
}

impl<'a> Model for Cursor<'a> {
    ghost use Rattle.std.specs.Prelude.{List, ℕ};
    ghost use Rattle.first_form.specs.Lexemes.{lexemes};

    ghost Value = { List (List ℕ) };

    ghost use Rattle.std.specs.Prelude.{◌≤◌, length};

    ghost view = { λ c. lexemes c.rest.now };

    ghost invariant = { λ c. length c.rest.now ≤ length c.source.now };
}

impl<'a> Cursor<'a> {
    /// At the front of a source.
    pub(crate) fn new(source: &'a [u8]) -> Self
        ensures { result ≡ lexemes source.now }
    {
        Cursor {
            source,
            rest: source,
        }
    }

    /// The place of the next lexeme, or the place just past the source where none is left.
    pub(crate) fn place(&self) -> Pos {
        let left = past_blanks(self.rest).len();
        place_past(&self.source[..self.source.len() - left])
    }

    /// Whether no lexeme is left.
    pub(crate) fn is_done(&self) -> bool
        ensures { IsTrue result ↔ (self.now ≡ []) }
    {
        split_lexeme(self.rest).is_none()
    }

    /// Takes the next lexeme where it is this word.
    pub(crate) fn goes(&mut self, word: &[u8]) -> bool
        ensures taken { OnTrue result (self.old ≡ word.now ∷ self.new) }
        ensures kept { OnFalse result (self.new ≡ self.old) }
        ensures other { OnFalse result ((ts : List (List ℕ)) → self.old ≢ word.now ∷ ts) }
    {
        match split_lexeme(self.rest) {
            Some((lexeme, rest)) => {
                if lexeme == word {
                    self.rest = rest;
                    true
                } else {
                    false
                }
            }
            None => false,
        }
    }

    /// Takes the next lexeme where it is a constant, and gives its value.
    pub(crate) fn constant(&mut self) -> Option<u32>
        ensures small { IfSome result (λ n. n ≤ 2147483647) }
        ensures taken { IfSome result (λ n. self.old ≡ decimal n ∷ self.new) }
        ensures kept { IfNone result (self.new ≡ self.old) }
        ensures other { IfNone result ((n : ℕ) (ts : List (List ℕ)) → n ≤ 2147483647 → self.old ≢ decimal n ∷ ts) }
    {
        let (lexeme, rest) = split_lexeme(self.rest)?;
        let value = constant_of(lexeme)?;
        self.rest = rest;
        Some(value)
    }
}
