//! Tokens (C11 6.4): keywords, names, constants, strings and punctuators, each with its place.
//! The lexer makes them and the parsers read them.

use word_ops::{Items, Text};

/// A place in a source: its line and the column of a byte in it, both counted from 1.
#[derive(Clone, Copy, Debug, PartialEq, Eq)]
pub struct Pos {
    pub line: u32,
    pub column: u32,
}

/// The keywords (C11 6.4.1), those of features that the profile leaves out among them.
#[derive(Clone, Copy, Debug, PartialEq, Eq)]
pub enum Keyword {
    /// `auto`
    Auto,
    /// `break`
    Break,
    /// `case`
    Case,
    /// `char`
    Char,
    /// `const`
    Const,
    /// `continue`
    Continue,
    /// `default`
    Default,
    /// `do`
    Do,
    /// `double`
    Double,
    /// `else`
    Else,
    /// `enum`
    Enum,
    /// `extern`
    Extern,
    /// `float`
    Float,
    /// `for`
    For,
    /// `goto`
    Goto,
    /// `if`
    If,
    /// `inline`
    Inline,
    /// `int`
    Int,
    /// `long`
    Long,
    /// `register`
    Register,
    /// `restrict`
    Restrict,
    /// `return`
    Return,
    /// `short`
    Short,
    /// `signed`
    Signed,
    /// `sizeof`
    Sizeof,
    /// `static`
    Static,
    /// `struct`
    Struct,
    /// `switch`
    Switch,
    /// `typedef`
    Typedef,
    /// `union`
    Union,
    /// `unsigned`
    Unsigned,
    /// `void`
    Void,
    /// `volatile`
    Volatile,
    /// `while`
    While,
    /// `_Alignas`
    AlignAs,
    /// `_Alignof`
    AlignOf,
    /// `_Atomic`
    Atomic,
    /// `_Bool`
    Bool,
    /// `_Complex`
    Complex,
    /// `_Generic`
    Generic,
    /// `_Imaginary`
    Imaginary,
    /// `_Noreturn`
    NoReturn,
    /// `_Static_assert`
    StaticAssert,
    /// `_Thread_local`
    ThreadLocal,
}

/// The punctuators (C11 6.4.6) without digraphs, `#` and `##`.
#[derive(Clone, Copy, Debug, PartialEq, Eq)]
pub enum Punct {
    /// `[`
    LeftBracket,
    /// `]`
    RightBracket,
    /// `(`
    LeftParen,
    /// `)`
    RightParen,
    /// `{`
    LeftBrace,
    /// `}`
    RightBrace,
    /// `.`
    Dot,
    /// `->`
    Arrow,
    /// `++`
    Increment,
    /// `--`
    Decrement,
    /// `&`
    Ampersand,
    /// `*`
    Star,
    /// `+`
    Plus,
    /// `-`
    Minus,
    /// `~`
    Tilde,
    /// `!`
    Not,
    /// `/`
    Slash,
    /// `%`
    Percent,
    /// `<<`
    ShiftLeft,
    /// `>>`
    ShiftRight,
    /// `<`
    Less,
    /// `>`
    Greater,
    /// `<=`
    LessEqual,
    /// `>=`
    GreaterEqual,
    /// `==`
    Equal,
    /// `!=`
    NotEqual,
    /// `^`
    Caret,
    /// `|`
    Bar,
    /// `&&`
    AndAnd,
    /// `||`
    OrOr,
    /// `?`
    Question,
    /// `:`
    Colon,
    /// `;`
    Semicolon,
    /// `...`
    Ellipsis,
    /// `=`
    Assign,
    /// `*=`
    StarAssign,
    /// `/=`
    SlashAssign,
    /// `%=`
    PercentAssign,
    /// `+=`
    PlusAssign,
    /// `-=`
    MinusAssign,
    /// `<<=`
    ShiftLeftAssign,
    /// `>>=`
    ShiftRightAssign,
    /// `&=`
    AmpersandAssign,
    /// `^=`
    CaretAssign,
    /// `|=`
    BarAssign,
    /// `,`
    Comma,
}

/// The type of an integer constant (C11 6.4.4.1).
#[derive(Clone, Copy, Debug, PartialEq, Eq)]
pub enum IntKind {
    Int,
    Unsigned,
    Long,
    UnsignedLong,
}

/// What a token is.
#[derive(Debug, Drop)]
pub enum TokenKind {
    Keyword(Keyword),
    /// An identifier (C11 6.4.2).
    Name(Text),
    /// An integer constant: its value, and the first type of its list that holds it (C11 6.4.4.1).
    Number { value: u32, kind: IntKind },
    /// A character constant of one element (C11 6.4.4.4), by that element's value.
    Char(u8),
    /// A string literal (C11 6.4.5), by the bytes of its elements, without the zero byte at its end.
    Bytes(Text),
    Punct(Punct),
}

/// A token and where its first byte stands.
#[derive(Debug, Drop)]
pub struct Token {
    pub kind: TokenKind,
    pub place: Pos,
}

/// The tokens of a source, and the place just past its last byte.
#[derive(Debug, Drop)]
pub struct Tokens {
    pub list: Items<Token>,
    pub end: Pos,
}
