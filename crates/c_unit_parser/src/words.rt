//! What the kinds of tokens stand for.
//! They tell which statement, and which item of a block, a token begins.

ghost use Rattle.std.specs.Prelude.{◌≡◌, true, [], Some};
ghost use Rattle.std.specs.Option.{option_copied};
ghost use Rattle.c_tree.specs.declared.token.TokenKind.TheVariants as k;
ghost use Rattle.c_unit_grammar.specs.Keywords.{same_word};
ghost use Rattle.c_unit_grammar.specs.Read.Words as spec;
ghost use Rattle.c_unit_parser.specs.Kinds.{of_statement, of_item};

use c_tree::{Keyword, Punct, TokenKind};

/// Whether two keywords are one.
fn is_same_word(one: Keyword, other: Keyword) -> bool
    ensures { result ≡ same_word one other }
{
    one as u8 == other as u8
}

/// Whether a token is this keyword.
pub fn is_word(kind: Option<&TokenKind>, word: Keyword) -> bool
    ensures { result ≡ spec.is_word word (option_copied kind.entry) }
{
    match kind {
        Some(TokenKind::Keyword(other)) => is_same_word(*other, word),
        _ => false,
    }
}

/// The kinds of statements (C11 6.8).
#[derive(Clone, Copy)]
pub enum StatementKind {
    /// A block.
    Braced,
    /// `if`
    If,
    /// `while`
    While,
    /// `do`
    Do,
    /// `for`
    For,
    /// `switch`
    Switch,
    /// `break`
    Break,
    /// `continue`
    Continue,
    /// `return`
    Return,
    /// An expression or nothing, and `;`.
    Expression,
}

fn kind_of_word(word: Keyword) -> StatementKind
    ensures { of_statement result ≡ spec.statement_kind (Some (k.Keyword word)) }
{
    match word {
        Keyword::If => StatementKind::If,
        Keyword::While => StatementKind::While,
        Keyword::Do => StatementKind::Do,
        Keyword::For => StatementKind::For,
        Keyword::Switch => StatementKind::Switch,
        Keyword::Break => StatementKind::Break,
        Keyword::Continue => StatementKind::Continue,
        Keyword::Return => StatementKind::Return,
        _ => StatementKind::Expression,
    }
}

fn kind_of_mark(op: Punct) -> StatementKind
    ensures { of_statement result ≡ spec.statement_kind (Some (k.Punct op)) }
{
    match op {
        Punct::LeftBrace => StatementKind::Braced,
        _ => StatementKind::Expression,
    }
}

/// The kind of statement that a token begins.
pub fn statement_kind(kind: Option<&TokenKind>) -> StatementKind
    ensures { of_statement result ≡ spec.statement_kind (option_copied kind.entry) }
{
    match kind {
        Some(TokenKind::Keyword(word)) => kind_of_word(*word),
        Some(TokenKind::Punct(op)) => kind_of_mark(*op),
        _ => StatementKind::Expression,
    }
}

/// Whether a word begins a statement.
pub fn word_begins_statement(word: Keyword) -> bool
    ensures { result ≡ spec.begins_statement [] (Some (k.Keyword word)) }
{
    match word {
        Keyword::If
        | Keyword::While
        | Keyword::Do
        | Keyword::For
        | Keyword::Switch
        | Keyword::Break
        | Keyword::Continue
        | Keyword::Return
        | Keyword::Sizeof => true,
        _ => false,
    }
}

/// Whether a punctuator begins a statement that is no block: `;`, `(` or a prefix (C11 6.8.3, 6.5.3).
pub fn mark_begins_statement(op: Punct) -> bool
    ensures { result ≡ spec.begins_statement [] (Some (k.Punct op)) }
{
    match op {
        Punct::Semicolon
        | Punct::LeftParen
        | Punct::Ampersand
        | Punct::Star
        | Punct::Plus
        | Punct::Minus
        | Punct::Tilde
        | Punct::Not
        | Punct::Increment
        | Punct::Decrement => true,
        _ => false,
    }
}

/// The kinds of items of a block (C11 6.8.2, 6.8.1).
#[derive(Clone, Copy)]
pub enum ItemKind {
    /// A declaration.
    Declaration,
    /// `case`
    Case,
    /// `default`
    Default,
    /// A statement.
    Statement,
}

fn label_of_word(word: Keyword) -> ItemKind
    ensures { of_item result ≡ spec.label_kind true (Some (k.Keyword word)) }
{
    match word {
        Keyword::Case => ItemKind::Case,
        Keyword::Default => ItemKind::Default,
        _ => ItemKind::Statement,
    }
}

/// The kind of an item that is no declaration, where labels may stand or not.
pub fn label_kind(labels: bool, kind: Option<&TokenKind>) -> ItemKind
    ensures { of_item result ≡ spec.label_kind labels (option_copied kind.entry) }
{
    if !labels {
        return ItemKind::Statement;
    }
    match kind {
        Some(TokenKind::Keyword(word)) => label_of_word(*word),
        _ => ItemKind::Statement,
    }
}
