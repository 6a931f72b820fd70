//! Keywords and names (C11 6.4.1, 6.4.2): which bytes belong to a word, and which word is a keyword.
//! The keywords are one table, by their spelling.

ghost use Rattle.std.specs.Prelude.{◌≡◌, ◌≤◌, length, map};
ghost use Rattle.std.specs.List.{prefix_len};
ghost use Rattle.c_lexer.specs.Fronts.{lookup};
ghost use Rattle.c_lexer.specs.Names as spec;

use c_tree::Keyword;

/// The keywords by their spelling.
const KEYWORDS: [(&[u8], Keyword); 44] = [
    (b"auto", Keyword::Auto),
    (b"break", Keyword::Break),
    (b"case", Keyword::Case),
    (b"char", Keyword::Char),
    (b"const", Keyword::Const),
    (b"continue", Keyword::Continue),
    (b"default", Keyword::Default),
    (b"do", Keyword::Do),
    (b"double", Keyword::Double),
    (b"else", Keyword::Else),
    (b"enum", Keyword::Enum),
    (b"extern", Keyword::Extern),
    (b"float", Keyword::Float),
    (b"for", Keyword::For),
    (b"goto", Keyword::Goto),
    (b"if", Keyword::If),
    (b"inline", Keyword::Inline),
    (b"int", Keyword::Int),
    (b"long", Keyword::Long),
    (b"register", Keyword::Register),
    (b"restrict", Keyword::Restrict),
    (b"return", Keyword::Return),
    (b"short", Keyword::Short),
    (b"signed", Keyword::Signed),
    (b"sizeof", Keyword::Sizeof),
    (b"static", Keyword::Static),
    (b"struct", Keyword::Struct),
    (b"switch", Keyword::Switch),
    (b"typedef", Keyword::Typedef),
    (b"union", Keyword::Union),
    (b"unsigned", Keyword::Unsigned),
    (b"void", Keyword::Void),
    (b"volatile", Keyword::Volatile),
    (b"while", Keyword::While),
    (b"_Alignas", Keyword::AlignAs),
    (b"_Alignof", Keyword::AlignOf),
    (b"_Atomic", Keyword::Atomic),
    (b"_Bool", Keyword::Bool),
    (b"_Complex", Keyword::Complex),
    (b"_Generic", Keyword::Generic),
    (b"_Imaginary", Keyword::Imaginary),
    (b"_Noreturn", Keyword::NoReturn),
    (b"_Static_assert", Keyword::StaticAssert),
    (b"_Thread_local", Keyword::ThreadLocal),
];

pub fn is_letter(b: u8) -> bool
    ensures { result ≡ spec.is_letter b }
{
    b.is_ascii_alphabetic() || b == b'_'
}

pub fn is_word(b: u8) -> bool
    ensures { result ≡ spec.is_word b }
{
    is_letter(b) || b.is_ascii_digit()
}

/// How many bytes in front may stand in a name.
pub fn word_len(bytes: &[u8]) -> usize
    ensures value { result ≡ prefix_len spec.is_word bytes.now }
    ensures within { result ≤ length bytes.now }
{
    bytes.iter().take_while(|b| is_word(**b)).count()
}

/// The keyword beside a text in a table.

fn lookup(table: &[(&[u8], Keyword)], text: &[u8]) -> Option<Keyword>
    ensures { result ≡ lookup (map (λ entry. (entry.0.now, entry.1)) table.now) text.now }
{
    let mut rest = table;
    'entries: while let [entry, more @ ..] = rest {
        if entry.0 == text {
            return Some(entry.1);
        }
        rest = more;
    }
    None
}

/// The keyword of a text, if it is one.
#[tactic(auto, unfolding(crate::specs::Names::keyword_of))]
pub fn keyword(text: &[u8]) -> Option<Keyword>
    ensures { result ≡ spec.keyword_of text.now }
{
    lookup(&KEYWORDS, text)
}
