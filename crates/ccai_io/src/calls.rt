//! Calls that are numbered from 1, and the lists of those that are to fail, as the types in memory
//! keep them.
ghost use Rattle.std.specs.Prelude.{◌≡◌, ◌+◌, ◌==◌};
ghost use Rattle.ccai_io.specs.Calls.{is_listed as is_listed_after};
ghost use Rattle.ccai_io.specs.MemSink.{planned};

// Whether a number is that of the next call, after so many calls. The first call has number 1, and
// a call behind the last one that a `u64` counts has a number that no `u64` is.
fn is_next(number: u64, calls: u64) -> bool
    ensures { result ≡ (number == calls + 1) }
{
    number.checked_sub(1) == Some(calls)
}

/// Whether the next call is in a list of numbers, after so many calls.
pub(crate) fn is_listed(failing: &[u64], calls: u64) -> bool
    ensures { result ≡ is_listed_after failing.now calls }
{
    failing.iter().any(|number| is_next(*number, calls))
}

/// How many bytes the next call is to keep where it is in a list of failing calls, after so many
/// calls. The first entry of its number counts.
pub(crate) fn planned_at(failing: &[(u64, usize)], calls: u64) -> Option<usize>
    ensures { result ≡ planned failing.now calls }
{
    failing
        .iter()
        .find(|entry| is_next(entry.0, calls))
        .map(|entry| entry.1)
}
