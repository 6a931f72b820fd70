//! Copies of values, which may want memory.
//! What a list needs of its values beside that they are compared and hashed.

ghost use Rattle.std.specs.Prelude.{◌≡◌, IfOk};

use std::alloc::Global;
use word_ops::{Memory, Text};

/// A value of which there can be a second one.
pub trait TryClone: Sized {
    /// Another value that is the same.
    ///
    /// # Errors
    ///
    /// `Memory` where memory for it is wanting.
    fn try_clone(&self, alloc: Global) -> Result<Self, Memory>
        ensures { IfOk result (λ copy. copy ≡ self.now) };
}

impl TryClone for u32 {
    fn try_clone(&self, _alloc: Global) -> Result<u32, Memory> {
        Ok(*self)
    }
}

impl TryClone for Text {
    fn try_clone(&self, alloc: Global) -> Result<Text, Memory> {
        Ok(Text::from_vec(Vec::from_slice(alloc, self.as_slice())?))
    }
}
