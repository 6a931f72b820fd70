//! What a call of the program comes to, and its status.
ghost use Rattle.std.specs.Prelude.{◌≡◌};
ghost use Rattle.top_call.specs.Lines.{outcome_of};
ghost use Rattle.top_call.specs.Outcome.{status_of};

use c_tree::Pos;

/// What a call of the program comes to.
#[derive(Clone, Copy)]
pub(crate) enum Answer<'a> {
    /// The program that was run ended by itself with this status.
    Own(u8),
    /// The words are no command line.
    Usage,
    /// There is no file of this name.
    Missing(&'a str),
    /// The file or the input could not be read.
    ReadFault,
    /// The output could not be written.
    WriteFault,
    /// The source at this place is not built yet.
    NotYet(Pos),
    /// The source is too long.
    Room,
    /// The file is no image from this offset on.
    BadImage(u64),
    /// The machine trapped at this pc.
    Trap(u32),
    /// The machine had not ended when the steps were spent.
    StepsSpent,
    /// The machine ended by the depth call.
    TooDeep,
    /// Memory is wanting.
    OutOfMemory,
}

impl Answer<'_> {
    /// The status that the process ends with.
    pub(crate) fn status(self) -> u8
        ensures { result ≡ status_of (outcome_of self.entry) }
    {
        match self {
            Answer::Own(status) => status,
            Answer::Usage => 64,
            Answer::NotYet(_) => 65,
            Answer::Missing(_) => 66,
            Answer::BadImage(_) => 67,
            Answer::ReadFault => 68,
            Answer::WriteFault => 69,
            Answer::OutOfMemory => 70,
            Answer::Room => 71,
            Answer::Trap(_) => 72,
            Answer::StepsSpent => 73,
            Answer::TooDeep => 74,
        }
    }
}
