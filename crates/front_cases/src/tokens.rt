//! Tokens and the refusals of the lexer, as text.

use c_lexer::LexFault;
use c_tree::{Token, TokenKind, Tokens};
use std::alloc::{AllocError, Global};
use word_ops::Text;

/// Puts a text's bytes as characters.
pub fn put_bytes(out: &mut String, text: &Text) -> Result<(), AllocError> {
    for byte in text.as_slice() {
        out.push(char::from(*byte))?;
    }
    Ok(())
}

fn put_kind(out: &mut String, kind: &TokenKind) -> Result<(), AllocError> {
    match kind {
        TokenKind::Keyword(word) => write!(out, "word {word:?}"),
        TokenKind::Name(text) => {
            out.push_str("name ")?;
            put_bytes(out, text)
        }
        TokenKind::Number { value, kind } => write!(out, "{value} {kind:?}"),
        TokenKind::Char(value) => write!(out, "char {value}"),
        TokenKind::Bytes(text) => {
            let bytes = text.as_slice();
            write!(out, "bytes {bytes:?}")
        }
        TokenKind::Punct(mark) => write!(out, "{mark:?}"),
    }
}

fn put_token(out: &mut String, token: &Token) -> Result<(), AllocError> {
    write!(out, "{}:{} ", token.place.line, token.place.column)?;
    put_kind(out, &token.kind)?;
    out.push_str(", ")
}

/// Puts the tokens with their places, and where the source ends.
pub fn put_tokens(out: &mut String, tokens: &Tokens) -> Result<(), AllocError> {
    for token in tokens.list.as_slice() {
        put_token(out, token)?;
    }
    write!(out, "end {}:{}", tokens.end.line, tokens.end.column)
}

/// Puts a refusal and its place.
pub fn put_lex_fault(out: &mut String, fault: &LexFault) -> Result<(), AllocError> {
    match fault {
        LexFault::BadToken(place) => write!(out, "BadToken {}:{}", place.line, place.column),
        LexFault::Unsupported(feature, place) => {
            write!(out, "{feature:?} {}:{}", place.line, place.column)
        }
        LexFault::Memory => out.push_str("Memory"),
    }
}

/// Whether tokens are of these kinds.
pub fn are_of_kinds(
    alloc: Global,
    tokens: &[Token],
    kinds: &[TokenKind],
) -> Result<bool, AllocError> {
    let read = tokens_shown(alloc, tokens)?;
    let wanted = kinds_shown(alloc, kinds)?;
    Ok(read.as_str() == wanted.as_str())
}

fn tokens_shown(alloc: Global, tokens: &[Token]) -> Result<String, AllocError> {
    let mut out = String::new(alloc);
    for token in tokens {
        write!(out, "{:?} ", token.kind)?;
    }
    Ok(out)
}

fn kinds_shown(alloc: Global, kinds: &[TokenKind]) -> Result<String, AllocError> {
    let mut out = String::new(alloc);
    for kind in kinds {
        write!(out, "{kind:?} ")?;
    }
    Ok(out)
}
