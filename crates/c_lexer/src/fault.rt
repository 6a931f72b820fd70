//! Why a source has no tokens (C11 6.4): the fault that `lex` answers with, and its place.
//! Want of memory is one of them.

use c_tree::{Feature, Pos};
use std::alloc::{AllocError, AllocFailed};
use thiserror::Error;

/// Why a source has no tokens.
#[derive(Debug, Drop, Error)]
pub enum LexFault {
    /// The bytes at this place are no token of C11.
    #[error("bad token")]
    BadToken(Pos),
    /// The token at this place belongs to a feature that the profile leaves out.
    #[error("unsupported feature")]
    Unsupported(Feature, Pos),
    /// Memory is wanting.
    #[error("out of memory")]
    Memory,
}

impl From<AllocError> for LexFault {
    ghost use Rattle.std.specs.Prelude.{◌≡◌};
    ghost use Rattle.c_lexer.specs.declared.fault.LexFault.TheVariants.{Memory};

    ghost from_gives = { λ _ fault. fault ≡ Memory };

    fn from(_refused: AllocError) -> LexFault {
        LexFault::Memory
    }
}

impl<T: Drop> From<AllocFailed<T>> for LexFault {
    ghost use Rattle.std.specs.Prelude.{◌≡◌};
    ghost use Rattle.c_lexer.specs.declared.fault.LexFault.TheVariants.{Memory};

    ghost from_gives = { λ _ fault. fault ≡ Memory };

    fn from(_refused: AllocFailed<T>) -> LexFault {
        LexFault::Memory
    }
}
