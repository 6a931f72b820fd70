//! Calls one layer by itself, for the timings of `bench/`.
//!
//!     ccai_bench run IMAGE STEPS      runs an image for at most so many steps; the status is the program's
//!     ccai_bench lex SOURCE           reads the tokens of a source; the status is 0
//!     ccai_bench expression SOURCE    reads a source's tokens and from them one expression, which is all of it
//!     ccai_bench unit SOURCE          reads a source's tokens and from them a unit
//!     ccai_bench types SOURCE         reads a source's tokens, a unit and its typed tree
//!
//! The status is 64 where the words are not so, 65 where the file is refused, 70 where memory is wanting for the
//! typed tree (elsewhere that is 65), and 73 where the program did not end by itself.
#![tactic(auto)]

use c_tree::Tokens;
use c_types::{CheckFault, check};
use ccai_io::{FileShelf, Shelf, StdSink, StdSource};
use rv_machine::End;
use scope_map::ScopeMap;
use std::process::ExitCode;
use std::{env, io};

/// The status where the words are no command.
const USAGE: u8 = 64;

/// The status where the layer refuses what it was given.
const REFUSED: u8 = 65;

/// The status where memory is wanting for a typed tree.
const WANTING: u8 = 70;

/// The status where a program did not end by itself.
const SPENT: u8 = 73;

/// The greatest length of a source that the lexer takes, in bytes.
const LONGEST_SOURCE: usize = u32::MAX as usize - 1;

/// How far a source is read.
#[derive(Clone, Copy)]
enum Layer {
    Lex,
    Expression,
    Unit,
    Types,
}

fn main(rt: HostRuntime) -> ExitCode {
    ExitCode::from(status(&rt))
}

/// The status of what the words ask for.
fn status(rt: &HostRuntime) -> u8 {
    match words(rt) {
        Ok(words) => call(rt, words.as_slice()),
        Err(_) => USAGE,
    }
}

/// The words behind the program's name.
fn words(rt: &HostRuntime) -> io::Result<Vec<String>> {
    let mut words = Vec::new(rt.alloc());
    for word in env::args(rt)?.skip(1) {
        words.push(word)?;
    }
    Ok(words)
}

/// Does what the words ask for.
fn call(rt: &HostRuntime, words: &[String]) -> u8 {
    match words {
        [command, file] => match layer_of(command.as_str()) {
            Some(layer) => read_file(rt, layer, file.as_str()),
            None => USAGE,
        },
        [command, file, steps] if command.as_str() == "run" => match steps.parse::<u64>() {
            Ok(steps) => run_file(rt, file.as_str(), steps),
            Err(_) => USAGE,
        },
        _ => USAGE,
    }
}

/// The layer that a command calls.
fn layer_of(command: &str) -> Option<Layer> {
    match command {
        "lex" => Some(Layer::Lex),
        "expression" => Some(Layer::Expression),
        "unit" => Some(Layer::Unit),
        "types" => Some(Layer::Types),
        _ => None,
    }
}

/// Reads the source in a file up to a layer.
fn read_file(rt: &HostRuntime, layer: Layer, file: &str) -> u8 {
    match FileShelf::new(rt).take(rt.alloc(), file) {
        Ok(bytes) => read(rt, layer, bytes.as_slice()),
        Err(_) => REFUSED,
    }
}

/// Reads a source up to a layer.
fn read(rt: &HostRuntime, layer: Layer, source: &[u8]) -> u8 {
    if source.len() > LONGEST_SOURCE {
        return REFUSED;
    }
    let Ok(tokens) = c_lexer::lex(rt.alloc(), source) else {
        return REFUSED;
    };
    match layer {
        Layer::Lex => 0,
        Layer::Expression => read_expression(rt, &tokens),
        Layer::Unit => read_unit(rt, &tokens),
        Layer::Types => read_types(rt, &tokens),
    }
}

/// Reads all the tokens as one expression, where no name is a typedef name.
fn read_expression(rt: &HostRuntime, tokens: &Tokens) -> u8 {
    let mut names = ScopeMap::new(rt.alloc());
    match c_expr_parser::expression(rt.alloc(), tokens, 0, &mut names, 0) {
        Ok((_, behind)) if behind == tokens.list.len() => 0,
        _ => REFUSED,
    }
}

/// Reads all the tokens as a unit.
fn read_unit(rt: &HostRuntime, tokens: &Tokens) -> u8 {
    match c_unit_parser::parse(rt.alloc(), tokens) {
        Ok(_) => 0,
        Err(_) => REFUSED,
    }
}

/// Reads all the tokens as a unit, and its typed tree.
fn read_types(rt: &HostRuntime, tokens: &Tokens) -> u8 {
    let Ok(unit) = c_unit_parser::parse(rt.alloc(), tokens) else {
        return REFUSED;
    };
    match check(rt.alloc(), &unit) {
        Ok(_) => 0,
        Err(CheckFault::Fault(_, _)) => REFUSED,
        Err(CheckFault::Memory) => WANTING,
    }
}

/// Runs the image in a file for at most so many steps.
fn run_file(rt: &HostRuntime, file: &str, steps: u64) -> u8 {
    match FileShelf::new(rt).take(rt.alloc(), file) {
        Ok(bytes) => run(rt, bytes.as_slice(), steps),
        Err(_) => REFUSED,
    }
}

/// Runs an image for at most so many steps, over the streams of the process.
fn run(rt: &HostRuntime, image: &[u8], steps: u64) -> u8 {
    let Ok(image) = image_form::read(rt.alloc(), image) else {
        return REFUSED;
    };
    let Ok(mut machine) = rv_machine::load(rt.alloc(), &image) else {
        return REFUSED;
    };
    let mut input = StdSource::new(rt.stdin().lock());
    let mut out = StdSink::new(rt.stdout());
    match rv_machine::run(&mut machine, &mut input, &mut out, steps) {
        End::Exit(status) => status,
        _ => SPENT,
    }
}
