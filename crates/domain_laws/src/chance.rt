//! What `assume` answers: whether a term can have a truth in a world for which the domain
//! stands.

/// Whether a term can have a truth.
#[derive(Clone, Copy, Debug, PartialEq, Eq)]
pub enum Chance {
    /// in no world that the domain stands for
    Never,
    /// in some, for all that the domain knows
    Possible,
}
