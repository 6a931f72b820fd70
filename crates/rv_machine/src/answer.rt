//! The answers of steps and of runs.

/// What one step answers.
#[derive(Clone, Copy, Debug, PartialEq, Eq)]
pub enum Stepped {
    /// the machine goes on
    Going,
    /// it ended by the exit call, with this status
    Exit(u8),
    /// it ended by the depth call
    Deep,
    /// it trapped at this pc
    Trap(u32),
    /// the source failed as it asked for a byte
    ReadFault,
    /// the sink failed as it put a byte out
    WriteFault,
}

/// How a run ends.
#[derive(Clone, Copy, Debug, PartialEq, Eq)]
pub enum End {
    /// the machine ended by the exit call, with this status
    Exit(u8),
    /// it ended by the depth call
    Deep,
    /// it trapped at this pc
    Trap(u32),
    /// the source failed as it asked for a byte
    ReadFault,
    /// the sink failed as it put a byte out
    WriteFault,
    /// all steps were taken, and the machine goes on
    Spent,
}
