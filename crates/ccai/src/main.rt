//! The program `ccai`: it hands the words of its command line and the real files, input and outputs
//! to the top call, and ends with its status.
#![tactic(auto)]

use ccai_io::{FileShelf, StdSink, StdSource};
use std::io::ErrorKind;
use std::process::ExitCode;
use std::{env, io};

/// The status where a word of the command line is not UTF-8.
const USAGE: u8 = 64;

/// The status where memory for the words is wanting.
const OUT_OF_MEMORY: u8 = 70;

fn main(rt: HostRuntime) -> ExitCode {
    ExitCode::from(status(&rt))
}

fn status(rt: &HostRuntime) -> u8 {
    match words(rt) {
        Ok(words) => run(rt, words.as_slice()),
        Err(error) => status_without_words(&error),
    }
}

/// The words behind the program's name.
fn words(rt: &HostRuntime) -> io::Result<Vec<String>> {
    let mut words = Vec::new(rt.alloc());
    for word in env::args(rt)?.skip(1) {
        words.push(word)?;
    }
    Ok(words)
}

/// The status where the words could not be had.
fn status_without_words(error: &io::Error) -> u8 {
    match error.kind() {
        ErrorKind::OutOfMemory => OUT_OF_MEMORY,
        _ => USAGE,
    }
}

fn run(rt: &HostRuntime, words: &[String]) -> u8 {
    match borrowed(rt, words) {
        Ok(words) => top_call::drive(
            rt.alloc(),
            words.as_slice(),
            &mut FileShelf::new(rt),
            &mut StdSource::new(rt.stdin().lock()),
            &mut StdSink::new(rt.stdout()),
            &mut StdSink::new(rt.stderr()),
        ),
        Err(error) => status_without_words(&error),
    }
}

/// The words as they are handed on.
fn borrowed<'a>(rt: &HostRuntime, words: &'a [String]) -> io::Result<Vec<&'a str>> {
    let mut lent = Vec::with_capacity(rt.alloc(), words.len())?;
    for word in words {
        lent.push(word.as_str())?;
    }
    Ok(lent)
}
