//! The lexemes of a source: words, and single bytes.
ghost use Rattle.std.specs.Prelude.{◌≡◌, ◌∷◌, ◌<◌, ◌≤◌, drop, length, take, [], IfSome, MatchOption};
ghost use Rattle.std.specs.List.{prefix_len};
ghost use Rattle.first_form.specs.Lexemes.{is_space, is_word, lexeme_length, lexemes};

/// Whether a byte is white space.
pub(crate) fn is_blank(byte: u8) -> bool
    ensures { result ≡ is_space byte }
{
    byte == b' ' || (9 <= byte && byte <= 13)
}

/// Whether a byte is a letter, a digit or an underscore.
fn is_word_byte(byte: u8) -> bool
    ensures { result ≡ is_word byte }
{
    (b'a' <= byte && byte <= b'z')
        || ((b'A' <= byte && byte <= b'Z') || ((b'0' <= byte && byte <= b'9') || byte == b'_'))
}

/// How many bytes of white space stand in front.
pub(crate) fn blank_len(bytes: &[u8]) -> usize
    ensures { result ≡ prefix_len is_space bytes.now }
{
    bytes.iter().take_while(|byte| is_blank(**byte)).count()
}

/// How many letters, digits and underscores stand in front.
fn word_len(bytes: &[u8]) -> usize
    ensures { result ≡ prefix_len is_word bytes.now }
{
    bytes.iter().take_while(|byte| is_word_byte(**byte)).count()
}

/// The length of the lexeme in front, or 0 where nothing is left.
fn lexeme_len(bytes: &[u8]) -> usize
    ensures { result ≡ lexeme_length bytes.now }
{
    match bytes {
        [] => 0,
        [first, ..] => {
            if is_word_byte(*first) {
                word_len(bytes)
            } else {
                1
            }
        }
    }
}

/// The bytes from the first on that is no white space.
#[tactic(auto, using(crate::proofs::Lexemes::lexemes_past_spaces, crate::proofs::Lexemes::no_space_past_spaces, crate::proofs::Lexemes::prefix_within))]
pub(crate) fn past_blanks(bytes: &[u8]) -> &[u8]
    ensures same { lexemes result.now ≡ lexemes bytes.now }
    ensures within { length result.now ≤ length bytes.now }
    ensures front { prefix_len is_space result.now ≡ 0 }
{
    let (_blanks, rest) = bytes.split_at(blank_len(bytes));
    rest
}

/// The first lexeme and what stands behind it, or `None` where no lexeme is left.
#[tactic(auto, using(crate::proofs::Lexemes::lexemes_split, crate::proofs::Lexemes::lexeme_within, crate::proofs::Lexemes::no_lexeme))]
pub(crate) fn split_lexeme(bytes: &[u8]) -> Option<(&[u8], &[u8])>
    ensures split { MatchOption result (lexemes bytes.now ≡ []) (λ p. lexemes bytes.now ≡ p.0.now ∷ lexemes p.1.now) }
    ensures within { IfSome result (λ p. length p.1.now ≤ length bytes.now) }
{
    let bytes = past_blanks(bytes);
    let end = lexeme_len(bytes);
    if end == 0 {
        return None;
    }
    Some(bytes.split_at(end))
}
