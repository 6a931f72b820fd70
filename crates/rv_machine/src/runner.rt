//! Steps and runs of a machine over any source and any sink.
ghost use Rattle.std.specs.Prelude.{◌≡◌, ◌≢◌, ◌≤◌, ℕ, List, Option, Some};
ghost use Rattle.rv_machine.specs.After.{RunsAs, end_of};
ghost use Rattle.rv_machine.specs.Effect.{Gets, Puts};
ghost use Rattle.rv_machine.specs.Pause.{ending_of, stopped};
ghost use Rattle.rv_machine.specs.Run.{Acts, Counts, Getting, Putting, Run, Steps, byte_or_end, world};
ghost use Rattle.rv_machine.specs.Step.{step_of};

use crate::answer::{End, Stepped};
use crate::machine::Machine;
use crate::request::Request;
use crate::stretch::Stop;
use ccai_io::{Sink, Source};

/// Takes one step: the effect of the instruction at pc, or a call of the environment. Takes no memory.
///
/// A step that answers anything but `Going` leaves the machine as it was. `ReadFault` comes only where
/// the step asks for a byte and the source failed, and `WriteFault` only where it puts a byte out and the
/// sink failed. A step that is no such call does not touch the source or the sink.
pub fn step<R: Source, W: Sink>(machine: &mut Machine, input: &mut R, out: &mut W) -> Stepped
    ensures step { Steps machine.old.text (world machine.old.state (R.left input.old) (W.held out.old) (R.faults input.old) (W.faults out.old)) result (world machine.new.state (R.left input.new) (W.held out.new) (R.faults input.new) (W.faults out.new)) }
    ensures text { machine.new.text ≡ machine.old.text }
    ensures unchanged { result ≢ Stepped.Going → machine.new ≡ machine.old }
    ensures input { step_of machine.old.text machine.old.state ≢ Gets → input.new ≡ input.old }
    ensures out { ((byte : ℕ) → step_of machine.old.text machine.old.state ≢ Puts byte) → out.new ≡ out.old }
    ensures reads { Counts (result ≡ Stepped.ReadFault) (R.faults input.old) (R.faults input.new) }
    ensures writes { Counts (result ≡ Stepped.WriteFault) (W.faults out.old) (W.faults out.new) }
    ensures told { (bytes : List ℕ) → R.left input.old ≡ Some bytes → RunsAs machine.old.text 1 bytes (world machine.old.state (R.left input.old) (W.held out.old) (R.faults input.old) (W.faults out.old)) (end_of result) (world machine.new.state (R.left input.new) (W.held out.new) (R.faults input.new) (W.faults out.new)) }
{
    take_step(machine, input, out)
}

fn take_step<R: Source, W: Sink>(machine: &mut Machine, input: &mut R, out: &mut W) -> Stepped
    ensures step { Steps machine.old.text (world machine.old.state (R.left input.old) (W.held out.old) (R.faults input.old) (W.faults out.old)) result (world machine.new.state (R.left input.new) (W.held out.new) (R.faults input.new) (W.faults out.new)) }
    ensures text { machine.new.text ≡ machine.old.text }
    ensures input { step_of machine.old.text machine.old.state ≢ Gets → input.new ≡ input.old }
    ensures out { ((byte : ℕ) → step_of machine.old.text machine.old.state ≢ Puts byte) → out.new ≡ out.old }
{
    match machine.advance(1).stop {
        None => Stepped::Going,
        Some(stop) => call(machine, input, out, stop),
    }
}

/// Takes at most so many steps, up to the first that does not answer `Going`. Takes no memory.
///
/// `Spent` comes where all steps answered `Going`, and any other answer is that of the last step.
pub fn run<R: Source, W: Sink>(machine: &mut Machine, input: &mut R, out: &mut W, steps: u64) -> End
    ensures run { Run machine.old.text steps (world machine.old.state (R.left input.old) (W.held out.old) (R.faults input.old) (W.faults out.old)) result (world machine.new.state (R.left input.new) (W.held out.new) (R.faults input.new) (W.faults out.new)) }
    ensures text { machine.new.text ≡ machine.old.text }
    ensures reads { Counts (result ≡ End.ReadFault) (R.faults input.old) (R.faults input.new) }
    ensures writes { Counts (result ≡ End.WriteFault) (W.faults out.old) (W.faults out.new) }
    ensures told { (bytes : List ℕ) → R.left input.old ≡ Some bytes → RunsAs machine.old.text steps bytes (world machine.old.state (R.left input.old) (W.held out.old) (R.faults input.old) (W.faults out.old)) result (world machine.new.state (R.left input.new) (W.held out.new) (R.faults input.new) (W.faults out.new)) }
{
    run_steps(machine, input, out, steps)
}

#[tactic(auto, unfolding(crate::specs::Run::Went))]
fn run_steps<R: Source, W: Sink>(
    machine: &mut Machine,
    input: &mut R,
    out: &mut W,
    steps: u64,
) -> End
    ensures run { Run machine.old.text steps (world machine.old.state (R.left input.old) (W.held out.old) (R.faults input.old) (W.faults out.old)) result (world machine.new.state (R.left input.new) (W.held out.new) (R.faults input.new) (W.faults out.new)) }
    ensures text { machine.new.text ≡ machine.old.text }
{
    let mut rest = steps;
    while rest > 0 {
        let advance = machine.advance(rest);
        rest -= advance.steps;
        if let Some(stop) = advance.stop {
            rest -= 1;
            if let Some(end) = ending(call(machine, input, out, stop)) {
                return end;
            }
        }
    }
    End::Spent
}

/// The end of a run whose last step gave this answer, or `None` where it goes on.
fn ending(answer: Stepped) -> Option<End>
    ensures { result ≡ ending_of answer }
{
    match answer {
        Stepped::Going => None,
        Stepped::Exit(status) => Some(End::Exit(status)),
        Stepped::Deep => Some(End::Deep),
        Stepped::Trap(pc) => Some(End::Trap(pc)),
        Stepped::ReadFault => Some(End::ReadFault),
        Stepped::WriteFault => Some(End::WriteFault),
    }
}

/// The step of a machine that stopped.
fn call<R: Source, W: Sink>(
    machine: &mut Machine,
    input: &mut R,
    out: &mut W,
    stop: Stop,
) -> Stepped
    ensures acts { Acts (stopped stop machine.old.state) (world machine.old.state (R.left input.old) (W.held out.old) (R.faults input.old) (W.faults out.old)) result (world machine.new.state (R.left input.new) (W.held out.new) (R.faults input.new) (W.faults out.new)) }
    ensures text { machine.new.text ≡ machine.old.text }
    ensures input { stopped stop machine.old.state ≢ Gets → input.new ≡ input.old }
    ensures out { ((byte : ℕ) → stopped stop machine.old.state ≢ Puts byte) → out.new ≡ out.old }
{
    match machine.request(stop) {
        Request::Byte => get_byte(machine, input),
        Request::Put(byte) => put_byte(machine, out, byte),
        Request::Exit(status) => Stepped::Exit(status),
        Request::Deep => Stepped::Deep,
        Request::Trap(pc) => Stepped::Trap(pc),
    }
}

/// Asks the source for a byte.
fn get_byte<R: Source>(machine: &mut Machine, input: &mut R) -> Stepped
    ensures gets { (held : Option (List ℕ)) → (faults : ℕ) → Getting (world machine.old.state (R.left input.old) held (R.faults input.old) faults) result (world machine.new.state (R.left input.new) held (R.faults input.new) faults) }
    ensures text { machine.new.text ≡ machine.old.text }
{
    match input.next() {
        Ok(byte) => {
            machine.answer(word_of(byte));
            Stepped::Going
        }
        Err(_) => Stepped::ReadFault,
    }
}

/// Puts a byte out.
fn put_byte<W: Sink>(machine: &mut Machine, out: &mut W, byte: u8) -> Stepped
    ensures puts { (left : Option (List ℕ)) → (faults : ℕ) → Putting byte (world machine.old.state left (W.held out.old) faults (W.faults out.old)) result (world machine.new.state left (W.held out.new) faults (W.faults out.new)) }
    ensures text { machine.new.text ≡ machine.old.text }
{
    match out.put(&[byte]) {
        Ok(()) => {
            machine.answer(u32::from(byte));
            Stepped::Going
        }
        Err(_) => Stepped::WriteFault,
    }
}

/// The answer to a request for a byte.
fn word_of(byte: Option<u8>) -> u32
    ensures { result ≡ byte_or_end byte }
{
    match byte {
        Some(byte) => u32::from(byte),
        None => u32::MAX,
    }
}
