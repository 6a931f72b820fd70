//! Sources as the files of cases write them: what stands between two backticks is repeated, or is a byte by its number.

use std::alloc::{AllocError, Global};

/// The bytes that a line stands for: `` `3 ab` `` is `ababab`, `` `10` `` the byte 10 and two backticks nothing.
pub fn expanded(alloc: Global, line: &str) -> Result<Vec<u8>, AllocError> {
    let mut source = Vec::new(alloc);
    let mut plain = true;
    for piece in line.split('`') {
        if plain {
            source.extend_from_slice(piece.as_bytes())?;
        } else {
            put_piece(&mut source, piece)?;
        }
        plain = !plain;
    }
    Ok(source)
}

/// Puts what stands between two backticks.
fn put_piece(source: &mut Vec<u8>, piece: &str) -> Result<(), AllocError> {
    match piece.split_once(' ') {
        Some((count, text)) => put_times(source, count.parse::<u16>().unwrap_or(0), text),
        None => put_byte(source, piece),
    }
}

/// Puts the byte of a number, and nothing where there is no such number.
fn put_byte(source: &mut Vec<u8>, number: &str) -> Result<(), AllocError> {
    if let Ok(byte) = number.parse::<u8>() {
        source.push(byte)?;
    }
    Ok(())
}

/// Puts a text so many times.
fn put_times(source: &mut Vec<u8>, count: u16, text: &str) -> Result<(), AllocError> {
    for _turn in 0..count {
        source.extend_from_slice(text.as_bytes())?;
    }
    Ok(())
}
