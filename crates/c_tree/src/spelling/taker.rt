//! What takes the kinds of a tree's tokens, one behind the other: a list, which keeps them, and a count, which tells how
//! many they are.

ghost use Rattle.std.specs.Prelude.{◌≡◌, ℕ, List, ◌++◌, ◌∷◌, [], OnOk};
ghost use Rattle.c_tree.specs.declared.token.TokenKind.{TokenKind};
ghost use Rattle.c_tree.specs.Spelling.Tokens.{units};

use crate::token::TokenKind;
use std::alloc::Global;
use word_ops::{Memory, Text};

/// What takes the kinds of tokens.
pub(super) trait Taker {
    /// What is kept of a kind.
    type Kept;

    /// What is kept of this kind.
    ghost shown: { TokenKind → Self.Kept };

    /// What is kept so far.
    ghost taken: { Self → List Self.Kept };

    /// Takes a kind without a text.
    fn take(&mut self, kind: TokenKind) -> Result<(), Memory>
        ensures { OnOk result (taken self.new ≡ taken self.old ++ shown kind ∷ []) };

    /// Takes a name.
    fn take_name(&mut self, text: &[u8]) -> Result<(), Memory>
        ensures { OnOk result (taken self.new ≡ taken self.old ++ shown (TokenKind.Name text.now) ∷ []) };

    /// Takes a string literal of these bytes.
    fn take_bytes(&mut self, bytes: &[u8]) -> Result<(), Memory>
        ensures { OnOk result (taken self.new ≡ taken self.old ++ shown (TokenKind.Bytes bytes.now) ∷ []) };
}

/// The kinds so far, in order.
#[derive(Drop)]
pub(super) struct Kinds {
    alloc: Global,
    list: Vec<TokenKind>,
}

impl Kinds {
    /// No kind.
    pub(super) fn new(alloc: Global) -> Self
        ensures { result.list.items ≡ [] }
    {
        Kinds {
            alloc,
            list: Vec::new(alloc),
        }
    }

    /// The list.
    pub(super) fn into_list(self) -> Vec<TokenKind>
        ensures { result ≡ self.list }
    {
        self.list
    }
}

impl Taker for Kinds {
    type Kept = TokenKind;

    ghost shown = { λ kind. kind };

    ghost taken = { λ kinds. kinds.list.items };

    fn take(&mut self, kind: TokenKind) -> Result<(), Memory> {
        self.list.push(kind)?;
        Ok(())
    }

    fn take_name(&mut self, text: &[u8]) -> Result<(), Memory> {
        let copy = Text::from_vec(Vec::from_slice(self.alloc, text)?);
        self.list.push(TokenKind::Name(copy))?;
        Ok(())
    }

    fn take_bytes(&mut self, bytes: &[u8]) -> Result<(), Memory> {
        let copy = Text::from_vec(Vec::from_slice(self.alloc, bytes)?);
        self.list.push(TokenKind::Bytes(copy))?;
        Ok(())
    }
}

/// How many kinds were taken.
#[derive(Drop)]
pub(super) struct Count {
    tokens: u64,
}

impl Count {
    /// None.
    pub(super) fn new() -> Self
        ensures { result.tokens ≡ 0 }
    {
        Count { tokens: 0 }
    }

    /// How many.
    pub(super) fn tokens(&self) -> u64
        ensures { result ≡ self.now.tokens }
    {
        self.tokens
    }

    /// Counts one more. `Memory` past 2^64 - 1, which no tree in memory has.
    #[tactic(auto, using(crate::proofs::Appends::units_more))]
    fn add_one(&mut self) -> Result<(), Memory>
        ensures { OnOk result (units self.new.tokens ≡ units self.old.tokens ++ tt ∷ []) }
    {
        let Some(more) = self.tokens.checked_add(1) else {
            return Err(Memory);
        };
        self.tokens = more;
        Ok(())
    }
}

impl Taker for Count {
    type Kept = ();

    ghost shown = { λ kind. tt };

    ghost taken = { λ count. units count.tokens };

    fn take(&mut self, kind: TokenKind) -> Result<(), Memory> {
        drop(kind);
        self.add_one()
    }

    fn take_name(&mut self, _text: &[u8]) -> Result<(), Memory> {
        self.add_one()
    }

    fn take_bytes(&mut self, _bytes: &[u8]) -> Result<(), Memory> {
        self.add_one()
    }
}
