//! The call that does all, and the commands: taking the file, running a source and running an image.
ghost use Rattle.std.specs.Prelude.{◌≡◌, ◌^◌, ◌≤◌, ◌*◌, length, map};
ghost use Rattle.image_form.specs.Limits.{IsWithinLimits};
ghost use Rattle.top_call.specs.CommandLine.{line_of};
ghost use Rattle.top_call.specs.Drive.{Driven, Drives, OfFile, RunsImage, RunsSource, outcome_of_end, outside, streams};
ghost use Rattle.top_call.specs.Lines.{outcome_of};
ghost use Rattle.top_call.specs.Steps.{MayRun, RunsConstants, outcome_of_fault};

use crate::answer::Answer;
use crate::line::{Line, read_line};
use crate::tell::tell;
use ccai_io::{Shelf, ShelfFault, Sink, Source};
use first_form::{Form, FormFault};
use image_form::{Image, ImageFault};
use rv_machine::End;
use std::alloc::Global;

/// How many bytes a source has at most.
const SOURCE_LIMIT: usize = 1 << 24;

/// How many steps a run has at most.
const STEP_LIMIT: u64 = 100_000_000;

/// Does all that the program does, and gives the status that it ends with.
///
/// `words` are the words behind the program's name. The file that they name is taken from `shelf`; a
/// program that is run reads `input` and puts its output, each byte a piece, to `out`. One line is put
/// to `err`, but for the program's own end. Where memory is wanting the status is 70.
pub fn drive<F: Shelf, R: Source, W: Sink, E: Sink>(
    alloc: Global,
    words: &[&str],
    shelf: &mut F,
    input: &mut R,
    out: &mut W,
    err: &mut E,
) -> u8
    ensures { Driven (map (λ w. w.now) words.now)
        (outside F.Shelf R.Source W.Sink shelf.old input.old out.old)
        (outside F.Shelf R.Source W.Sink shelf.new input.new out.new)
        result (E.held err.old) (E.faults err.old) (E.held err.new) (E.faults err.new) }
{
    let answer = answer_to(alloc, words, shelf, input, out);
    let _ = tell(err, answer);
    answer.status()
}

/// What a command line comes to.
fn answer_to<'a, F: Shelf, R: Source, W: Sink>(
    alloc: Global,
    words: &[&'a str],
    shelf: &mut F,
    input: &mut R,
    out: &mut W,
) -> Answer<'a>
    ensures { Drives (line_of (map (λ w. w.now) words.now))
        (outside F.Shelf R.Source W.Sink shelf.old input.old out.old)
        (outcome_of result)
        (outside F.Shelf R.Source W.Sink shelf.new input.new out.new) }
{
    match read_line(words) {
        Some(Line::Exec(file)) => exec(alloc, file, shelf, input, out),
        Some(Line::Run(image)) => run(alloc, image, shelf, input, out),
        None => Answer::Usage,
    }
}

/// Runs the source in a file.
fn exec<'a, F: Shelf, R: Source, W: Sink>(
    alloc: Global,
    file: &'a str,
    shelf: &mut F,
    input: &mut R,
    out: &mut W,
) -> Answer<'a>
    ensures { OfFile RunsSource file.now
        (outside F.Shelf R.Source W.Sink shelf.old input.old out.old)
        (outcome_of result)
        (outside F.Shelf R.Source W.Sink shelf.new input.new out.new) }
{
    match shelf.take(alloc, file) {
        Ok(bytes) => run_source(alloc, bytes.as_slice(), input, out),
        Err(fault) => not_taken(fault, file),
    }
}

/// Runs the image in a file.
fn run<'a, F: Shelf, R: Source, W: Sink>(
    alloc: Global,
    file: &'a str,
    shelf: &mut F,
    input: &mut R,
    out: &mut W,
) -> Answer<'a>
    ensures { OfFile RunsImage file.now
        (outside F.Shelf R.Source W.Sink shelf.old input.old out.old)
        (outcome_of result)
        (outside F.Shelf R.Source W.Sink shelf.new input.new out.new) }
{
    match shelf.take(alloc, file) {
        Ok(bytes) => run_image(alloc, bytes.as_slice(), input, out),
        Err(fault) => not_taken(fault, file),
    }
}

/// What a file that was not taken comes to.
fn not_taken(fault: ShelfFault, name: &str) -> Answer<'_>
    ensures { outcome_of result ≡ outcome_of_fault fault name.now }
{
    match fault {
        ShelfFault::Missing => Answer::Missing(name),
        ShelfFault::Failed => Answer::ReadFault,
        ShelfFault::Memory => Answer::OutOfMemory,
    }
}

/// Runs a source.
fn run_source<R: Source, W: Sink>(
    alloc: Global,
    bytes: &[u8],
    input: &mut R,
    out: &mut W,
) -> Answer<'static>
    ensures { RunsSource bytes.now (streams R.Source W.Sink input.old out.old) (outcome_of result) (streams R.Source W.Sink input.new out.new) }
{
    if bytes.len() > SOURCE_LIMIT {
        return Answer::Room;
    }
    match first_form::read(alloc, bytes) {
        Ok(form) => run_form(alloc, &form, input, out),
        Err(FormFault::NotYet(place)) => Answer::NotYet(place),
        Err(FormFault::Memory) => Answer::OutOfMemory,
    }
}

/// Runs the program of a source of the first form, with as many steps as it has words.
fn run_form<R: Source, W: Sink>(
    alloc: Global,
    form: &Form,
    input: &mut R,
    out: &mut W,
) -> Answer<'static>
    requires { 5 * length form.now.puts ≤ 2 ^ 24 }
    ensures { RunsConstants form.now.puts form.now.status (streams R.Source W.Sink input.old out.old) (outcome_of result) (streams R.Source W.Sink input.new out.new) }
{
    match first_form::image(alloc, form) {
        Ok(image) => run_machine(alloc, &image, image.text.len() as u64, input, out),
        Err(_) => Answer::OutOfMemory,
    }
}

/// Runs an image from the bytes of its file.
fn run_image<R: Source, W: Sink>(
    alloc: Global,
    bytes: &[u8],
    input: &mut R,
    out: &mut W,
) -> Answer<'static>
    ensures { RunsImage bytes.now (streams R.Source W.Sink input.old out.old) (outcome_of result) (streams R.Source W.Sink input.new out.new) }
{
    match image_form::read(alloc, bytes) {
        Ok(image) => run_machine(alloc, &image, STEP_LIMIT, input, out),
        Err(ImageFault::BadImage(offset)) => Answer::BadImage(offset),
        Err(ImageFault::Memory) => Answer::OutOfMemory,
    }
}

/// Runs the machine of an image for at most so many steps.
fn run_machine<R: Source, W: Sink>(
    alloc: Global,
    image: &Image,
    steps: u64,
    input: &mut R,
    out: &mut W,
) -> Answer<'static>
    requires { IsWithinLimits image.now }
    ensures { MayRun image.now steps (streams R.Source W.Sink input.old out.old) (outcome_of result) (streams R.Source W.Sink input.new out.new) }
{
    match rv_machine::load(alloc, image) {
        Ok(mut machine) => answer_of_end(rv_machine::run(&mut machine, input, out, steps)),
        Err(_) => Answer::OutOfMemory,
    }
}

/// What the end of a run comes to.
fn answer_of_end(end: End) -> Answer<'static>
    ensures { outcome_of result ≡ outcome_of_end end }
{
    match end {
        End::Exit(status) => Answer::Own(status),
        End::Deep => Answer::TooDeep,
        End::Trap(pc) => Answer::Trap(pc),
        End::ReadFault => Answer::ReadFault,
        End::WriteFault => Answer::WriteFault,
        End::Spent => Answer::StepsSpent,
    }
}
