//! Why a call, or a production, stopped.
//! A production gives the reason alone; a call adds the place.

use c_tree::Pos;
use thiserror::Error;
use word_ops::Memory;

/// Why a call read no tree.
#[derive(Debug, Drop, Error)]
pub enum ParseFault {
    /// The grammar stops here, where tokens may nest no deeper than 256.
    #[error("nested too deeply")]
    Nest(Pos),
    /// The grammar stops here, at a token with which the production does not go on, or where the tokens end.
    #[error("syntax")]
    Syntax(Pos),
    /// Memory is wanting.
    #[error("out of memory")]
    Memory,
}

/// Why a production stopped. The cursor stands at the place.
#[derive(Clone, Copy)]
pub enum Stop {
    /// The grammar does not go on with the next token.
    Syntax,
    /// The next token would be nested too deeply.
    Nest,
    /// Memory is wanting.
    Memory,
}

impl From<Memory> for Stop {
    ghost use Rattle.std.specs.Prelude.{◌≡◌};
    ghost use Rattle.c_expr_parser.specs.declared.fault.Stop.TheVariants as stop;

    ghost from_gives = { λ _ e. e ≡ stop.Memory };

    fn from(_refused: Memory) -> Stop {
        Stop::Memory
    }
}
