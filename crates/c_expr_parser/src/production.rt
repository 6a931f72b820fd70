//! The productions that go on with a punctuator behind an operand, by the numbers of the grammar.
//! They tell a loop over operators whether it goes on.

ghost use Rattle.std.specs.Prelude.{◌≡◌};
ghost use Rattle.c_tree.specs.Levels.Productions.{joins, of_level};
ghost use Rattle.c_expr_parser.specs.Numbers.{number};

use c_tree::{Level, Punct};

/// The productions of expressions that have operators, tightest first, each with its number; `Nothing` is none of them.
#[derive(Clone, Copy)]
pub enum Production {
    Postfix = 1,
    Product = 5,
    Sum = 6,
    Shift = 7,
    Relation = 8,
    Equality = 9,
    BitAnd = 10,
    BitXor = 11,
    BitOr = 12,
    And = 13,
    Or = 14,
    Conditional = 15,
    Assignment = 16,
    Comma = 17,
    Nothing = 100,
}

/// The number of a production.
pub fn number_of(production: Production) -> u8
    ensures { result ≡ number production }
{
    production as u8
}

/// The production of a level of binary operators.
pub fn production_of(level: Level) -> Production
    ensures { number result ≡ of_level level }
{
    match level {
        Level::Or => Production::Or,
        Level::And => Production::And,
        Level::BitOr => Production::BitOr,
        Level::BitXor => Production::BitXor,
        Level::BitAnd => Production::BitAnd,
        Level::Equality => Production::Equality,
        Level::Relation => Production::Relation,
        Level::Shift => Production::Shift,
        Level::Sum => Production::Sum,
        Level::Product => Production::Product,
    }
}

/// The production that goes on with this punctuator behind an operand of it (C11 6.5).
pub fn joined_by(op: Punct) -> Production
    ensures { number result ≡ joins op }
{
    match op {
        Punct::LeftBracket
        | Punct::LeftParen
        | Punct::Dot
        | Punct::Arrow
        | Punct::Increment
        | Punct::Decrement => Production::Postfix,
        Punct::Star | Punct::Slash | Punct::Percent => Production::Product,
        Punct::Plus | Punct::Minus => Production::Sum,
        Punct::ShiftLeft | Punct::ShiftRight => Production::Shift,
        Punct::Less | Punct::Greater | Punct::LessEqual | Punct::GreaterEqual => {
            Production::Relation
        }
        Punct::Equal | Punct::NotEqual => Production::Equality,
        Punct::Ampersand => Production::BitAnd,
        Punct::Caret => Production::BitXor,
        Punct::Bar => Production::BitOr,
        Punct::AndAnd => Production::And,
        Punct::OrOr => Production::Or,
        Punct::Question => Production::Conditional,
        Punct::Assign
        | Punct::StarAssign
        | Punct::SlashAssign
        | Punct::PercentAssign
        | Punct::PlusAssign
        | Punct::MinusAssign
        | Punct::ShiftLeftAssign
        | Punct::ShiftRightAssign
        | Punct::AmpersandAssign
        | Punct::CaretAssign
        | Punct::BarAssign => Production::Assignment,
        Punct::Comma => Production::Comma,
        Punct::RightBracket
        | Punct::RightParen
        | Punct::LeftBrace
        | Punct::RightBrace
        | Punct::Tilde
        | Punct::Not
        | Punct::Colon
        | Punct::Semicolon
        | Punct::Ellipsis => Production::Nothing,
    }
}
