//! What a machine asks of its environment as it stops.

/// What a machine that stopped asks of its environment.
#[derive(Clone, Copy)]
pub enum Request {
    /// the next byte of the input
    Byte,
    /// to put this byte out
    Put(u8),
    /// to end with this status
    Exit(u8),
    /// to end because calls are nested too deep
    Deep,
    /// nothing: it trapped at this pc
    Trap(u32),
}
