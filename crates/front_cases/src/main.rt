//! Prints what the layers of the front answer to the cases of files.
//!
//!     front_cases FILE ..
//!
//! A file has one case a line: a source. A line that begins with `== ` names the call that the cases behind it are
//! handed to, and may tell more behind a blank (`calls.rs` lists the calls). Each line is printed, a case with its
//! answer behind `=>`. So the output is the table of the cases, and it is compared with the one that was written by hand.
#![tactic(auto)]

mod answers;
mod calls;
mod outline;
mod source;
mod tokens;
mod trees;
mod typed;

use calls::{Call, answer, call_of};
use std::alloc::Global;
use std::{env, fs, io};

fn main(rt: HostRuntime) -> io::Result<()> {
    for file in env::args(&rt)?.skip(1) {
        print_file(&rt, file.as_str())?;
    }
    Ok(())
}

/// Prints the lines of a file, with the answers to its cases.
fn print_file(rt: &HostRuntime, file: &str) -> io::Result<()> {
    let text = fs::read_to_string(rt, file)?;
    let mut call = None;
    for line in text.as_str().lines() {
        match line.strip_prefix("== ") {
            Some(title) => {
                call = call_of(title);
                println!(rt; "{line}")?;
            }
            None => print_case(rt, call, line)?,
        }
    }
    Ok(())
}

/// Prints a case with its answer; a line without a case as it is.
fn print_case(rt: &HostRuntime, call: Option<Call>, line: &str) -> io::Result<()> {
    let Some(call) = call else {
        return println!(rt; "{line}");
    };
    if line.is_empty() {
        return println!(rt;);
    }
    let answer = answer_to(rt.alloc(), call, line)?;
    println!(rt; "{line} => {}", answer.as_str().trim_end())
}

/// The answer of a call to the case of a line.
fn answer_to(alloc: Global, call: Call, line: &str) -> io::Result<String> {
    let source = source::expanded(alloc, line)?;
    match answer(alloc, call, &source) {
        Ok(text) => Ok(text),
        Err(_) => Err(io::Error::from(io::ErrorKind::OutOfMemory)),
    }
}
