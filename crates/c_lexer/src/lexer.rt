//! `lex`: one walk over the bytes of a source that gives its tokens with their places (C11 5.1.1.2, 6.4).
//! Here stand what it keeps on its way and the order in which faults are told.

ghost use Rattle.std.specs.Prelude.{◌≡◌, ◌≤◌, ◌<◌, ◌+◌, ◌-◌, ◌^◌, ◌==◌, [], length, false, None, Some, IfOk, IfErr, OnOk};
ghost use Rattle.c_tree.specs.declared.token.Pos.{Pos};
ghost use Rattle.std.specs.Option.{option_or};
ghost use Rattle.c_lexer.specs.Features as features;
ghost use Rattle.c_lexer.specs.Scan as scan;
ghost use Rattle.c_lexer.specs.Tokens as spec;

use crate::fault::LexFault;
use crate::gap::gap_len;
use crate::lexeme::{lexeme, reading_as};
use crate::place::place_after;
use crate::reading::Reading;
use c_tree::{Feature, Keyword, Pos, Token, TokenKind, Tokens};
use std::alloc::Global;
use word_ops::Items;

/// What is kept of a source: its tokens so far, and the first that the profile leaves out.
#[derive(Drop)]
struct Reader {
    alloc: Global,
    list: Vec<Token>,
    left_out: Option<(Feature, Pos)>,
    /// Whether a `long` stands before, with only words since that may stand between two.
    after_long: bool,
}

/// Whether a word may stand between one `long` and another.
fn goes_with_long(word: Keyword) -> bool
    ensures { result ≡ features.goes_with_long word }
{
    matches!(
        word,
        Keyword::Int
            | Keyword::Signed
            | Keyword::Unsigned
            | Keyword::Const
            | Keyword::Static
            | Keyword::Extern
            | Keyword::Typedef
            | Keyword::Auto
            | Keyword::Register
            | Keyword::Long
    )
}

fn is_long(kind: &TokenKind) -> bool
    ensures { result ≡ features.is_long (Reading.Token kind.now) }
{
    matches!(kind, TokenKind::Keyword(Keyword::Long))
}

fn is_with_long(kind: &TokenKind) -> bool
    ensures { result ≡ features.is_with_long (Reading.Token kind.now) }
{
    match kind {
        TokenKind::Keyword(word) => goes_with_long(*word),
        _ => false,
    }
}

impl Reader {
    fn new(alloc: Global) -> Self
        ensures list { result.list.items ≡ [] }
        ensures left_out { result.left_out ≡ None }
        ensures after_long { result.after_long ≡ false }
    {
        Reader {
            alloc,
            list: Vec::new(alloc),
            left_out: None,
            after_long: false,
        }
    }

    /// Keeps the first token that is left out.
    fn leave_out(&mut self, place: Pos, feature: Feature)
        ensures { self.new ≡ record self.old { left_out = option_or self.old.left_out (Some (feature, place)) } }
    {
        if self.left_out.is_none() {
            self.left_out = Some((feature, place));
        }
    }

    /// Keeps a token.
    fn token(&mut self, place: Pos, kind: TokenKind) -> Result<(), LexFault>
        ensures ok { OnOk result (scan.Keeps self.old self.new place (Reading.Token kind)) }
        ensures err { IfErr result (λ fault. fault ≡ LexFault.Memory) }
    {
        let long = is_long(&kind);
        let with_long = is_with_long(&kind);
        if long && self.after_long {
            self.leave_out(place, Feature::LongLong);
        }
        self.after_long = long || (with_long && self.after_long);
        self.list.push(Token { kind, place })?;
        Ok(())
    }

    /// Keeps what a token is read as.
    fn keep(&mut self, place: Pos, text: &[u8], reading: Reading) -> Result<(), LexFault>
        requires within { scan.IsWithin (length text.now) reading }
        requires lines { place.line + length text.now < 2 ^ 32 }
        requires columns { place.column + length text.now < 2 ^ 32 }
        ensures ok { OnOk result (scan.Keeps self.old self.new place reading) }
        ensures good { OnOk result (spec.bad_place place text.now reading ≡ None) }
        ensures err { IfErr result (scan.IsFaultOf (spec.bad_place place text.now reading)) }
    {
        match reading {
            Reading::Token(kind) => {
                self.token(place, kind)?;
                Ok(())
            }
            Reading::LeftOut(feature) => {
                self.leave_out(place, feature);
                self.after_long = false;
                Ok(())
            }
            Reading::Bad(at) => Err(LexFault::BadToken(place_after(place, &text[..at]))),
        }
    }

    /// Takes the token in front, and answers its length.
    fn lexeme(&mut self, place: Pos, rest: &[u8]) -> Result<usize, LexFault>
        requires some { 0 < length rest.now }
        requires no_gap { scan.gap_len (place.column == 1) rest.now ≡ 0 }
        requires lines { place.line + length rest.now < 2 ^ 32 }
        requires columns { place.column + length rest.now < 2 ^ 32 }
        ensures ok { IfOk result (scan.Advances self.old self.new place rest.now) }
        ensures err { IfErr result (λ fault. (end : Pos) → spec.Refuses fault (scan.outcome_from self.old (spec.pieces_from 0 place rest.now) end)) }
    {
        let Some((form, length)) = lexeme(rest) else {
            return Err(LexFault::BadToken(place));
        };
        let text = &rest[..length];
        let reading = reading_as(self.alloc, form, text)?;
        self.keep(place, text, reading)?;
        Ok(length)
    }

    /// Takes the piece in front, white space, a comment, a marker line or a token, and answers its length.
    fn piece(&mut self, place: Pos, rest: &[u8]) -> Result<usize, LexFault>
        requires some { 0 < length rest.now }
        requires lines { place.line + length rest.now < 2 ^ 32 }
        requires columns { place.column + length rest.now < 2 ^ 32 }
        ensures ok { IfOk result (scan.Advances self.old self.new place rest.now) }
        ensures err { IfErr result (λ fault. (end : Pos) → spec.Refuses fault (scan.outcome_from self.old (spec.pieces_from 0 place rest.now) end)) }
    {
        let gap = gap_len(place.column == 1, rest);
        if gap > 0 {
            return Ok(gap);
        }
        self.lexeme(place, rest)
    }

    /// The tokens, or the first that is left out.
    fn finish(self, end: Pos) -> Result<Tokens, LexFault>
        ensures { result ≡ spec.outcome None self.left_out (record { list = self.list.items; end = end }) }
    {
        let Reader {
            alloc: _,
            list,
            left_out,
            after_long: _,
        } = self;
        match left_out {
            Some((feature, place)) => Err(LexFault::Unsupported(feature, place)),
            None => Ok(Tokens {
                list: Items::from_vec(list),
                end,
            }),
        }
    }
}

/// The tokens of a source, each the longest at its place (C11 6.4p4), and the place just past its last
/// byte.
///
/// A source has at most 2^32 - 2 bytes. Lines and columns count the bytes of the file from 1,
/// whatever a marker line says.
///
/// # Errors
///
/// `BadToken` at the first place where the bytes are no token, even behind a token that is left
/// out: a byte that begins none, a comment or literal that does not end, an empty character constant, an
/// escape that is unknown or above 255, an integer constant that no type holds, and a number that is
/// neither an integer constant nor a floating one. Else `Unsupported` at the first token of a feature
/// that the profile leaves out. `Memory` where memory for the tokens is wanting.
pub fn lex(alloc: Global, bytes: &[u8]) -> Result<Tokens, LexFault>
    requires { length bytes.now ≤ 2 ^ 32 - 2 }
    ensures tokens { IfOk result (λ tokens. spec.tokens_of bytes.now ≡ Ok tokens) }
    ensures refused { IfErr result (λ fault. spec.Refuses fault (spec.tokens_of bytes.now)) }
{
    let mut reader = Reader::new(alloc);
    let mut place = Pos { line: 1, column: 1 };
    let mut rest = bytes;
    'pieces: while !rest.is_empty() {
        let length = reader.piece(place, rest)?;
        place = place_after(place, &rest[..length]);
        rest = &rest[length..];
    }
    reader.finish(place)
}
