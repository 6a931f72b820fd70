//! Calls on the system that a signal interrupts are made again, so often at most.
use std::io;
use std::io::ErrorKind;

// How often an interrupted call is made again.
const REPEATS: u32 = 1000;

fn is_interrupted<T>(answer: &io::Result<T>) -> bool {
    match answer {
        Ok(_) => false,
        Err(error) => error.kind() == ErrorKind::Interrupted,
    }
}

/// The answer of a call on a reader, a writer or a runtime, which is made again where a signal
/// interrupts it, at most 1,000 times.
pub(crate) fn repeated<S, T: Drop, F: Fn(&mut S) -> io::Result<T>>(
    state: &mut S,
    call: F,
) -> io::Result<T>
    requires { F.IsAlwaysCallable call }
    ensures { (shown : _) × (left : _) × F.post call shown result left }
{
    for _ in 0..REPEATS {
        let answer = call(state);
        if !is_interrupted(&answer) {
            return answer;
        }
    }
    call(state)
}
