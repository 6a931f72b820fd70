//! The line on standard error that tells an answer.
ghost use Rattle.std.specs.Prelude.{◌≡◌, ◌++◌, ◌<◌, OnOk, codes, decimal};
ghost use Rattle.ccai_io.specs.Outside.{Appends, HasCause};
ghost use Rattle.top_call.specs.Lines.{outcome_of};
ghost use Rattle.top_call.specs.Outcome.{as_line, hex_digit, hex_word, message};

use crate::answer::Answer;
use c_tree::Pos;
use ccai_io::{Failed, Sink};
use itoa::Buffer;

/// Writes the line of an answer; the program's own end has none.
#[tactic(auto, using(crate::proofs::Tells::appends_nothing))]
pub(crate) fn tell<E: Sink>(err: &mut E, answer: Answer<'_>) -> Result<(), Failed>
    ensures told { OnOk result (Appends (E.held err.old) (E.held err.new) (message (outcome_of answer.entry))) }
    ensures cause { HasCause (E.faults err.old) (E.faults err.new) result }
{
    match answer {
        Answer::Own(_) => Ok(()),
        Answer::Usage => say(err, b"usage", b""),
        Answer::Missing(name) => say(err, b"missing ", name.as_bytes()),
        Answer::ReadFault => say(err, b"read fault", b""),
        Answer::WriteFault => say(err, b"write fault", b""),
        Answer::NotYet(place) => say_place(err, place, b"NotYet"),
        Answer::Room => say(err, b"room source", b""),
        Answer::BadImage(offset) => {
            say(
                err,
                b"bad image at ",
                Buffer::new().format(offset).as_bytes(),
            )
        }
        Answer::Trap(pc) => say_word(err, b"trap at ", pc),
        Answer::StepsSpent => say(err, b"steps spent", b""),
        Answer::TooDeep => say(err, b"too deep", b""),
        Answer::OutOfMemory => say(err, b"out of memory", b""),
    }
}

/// Writes a line of two parts.
fn say<E: Sink>(err: &mut E, first: &[u8], second: &[u8]) -> Result<(), Failed>
    ensures told { OnOk result (Appends (E.held err.old) (E.held err.new) (as_line (first.now ++ second.now))) }
    ensures cause { HasCause (E.faults err.old) (E.faults err.new) result }
{
    err.put(b"ccai: ")?;
    err.put(first)?;
    err.put(second)?;
    err.put(b"\n")
}

/// Writes a line that ends with a word in hexadecimal digits.
fn say_word<E: Sink>(err: &mut E, text: &[u8], word: u32) -> Result<(), Failed>
    ensures told { OnOk result (Appends (E.held err.old) (E.held err.new) (as_line (text.now ++ hex_word word))) }
    ensures cause { HasCause (E.faults err.old) (E.faults err.new) result }
{
    let digits = hex_digits(word);
    say(err, text, &digits)
}

/// Writes a line about a place in a source.
fn say_place<E: Sink>(err: &mut E, place: Pos, text: &[u8]) -> Result<(), Failed>
    ensures told { OnOk result (Appends (E.held err.old) (E.held err.new) (as_line (decimal place.line ++ (codes ":" ++ (decimal place.column ++ (codes ": " ++ text.now)))))) }
    ensures cause { HasCause (E.faults err.old) (E.faults err.new) result }
{
    err.put(b"ccai: ")?;
    err.put(Buffer::new().format(place.line).as_bytes())?;
    err.put(b":")?;
    err.put(Buffer::new().format(place.column).as_bytes())?;
    err.put(b": ")?;
    err.put(text)?;
    err.put(b"\n")
}

/// The eight hexadecimal digits of a word.
fn hex_digits(word: u32) -> [u8; 8]
    ensures { result ≡ hex_word word }
{
    [
        hex(word / 268435456 % 16),
        hex(word / 16777216 % 16),
        hex(word / 1048576 % 16),
        hex(word / 65536 % 16),
        hex(word / 4096 % 16),
        hex(word / 256 % 16),
        hex(word / 16 % 16),
        hex(word % 16),
    ]
}

/// A lower-case hexadecimal digit.
fn hex(digit: u32) -> u8
    requires { digit < 16 }
    ensures { result ≡ hex_digit digit }
{
    if digit < 10 {
        48 + digit as u8
    } else {
        87 + digit as u8
    }
}
