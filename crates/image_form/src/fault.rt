//! Why bytes are not read as an image.
ghost use Rattle.std.specs.Prelude.{◌≡◌};
ghost use Rattle.image_form.specs.declared.fault.ImageFault.TheVariants.{Memory};

use thiserror::Error;

/// Why bytes were not read as an image.
#[derive(Debug, Drop, Error)]
pub enum ImageFault {
    /// The bytes are not of the form of an image; this is the first offset at which they are wrong.
    #[error("bad image at {0}")]
    BadImage(u64),
    /// Want of memory.
    #[error("out of memory")]
    Memory,
}

impl From<word_ops::Memory> for ImageFault {
    ghost from_gives = { λ _ e. e ≡ Memory };

    fn from(_want: word_ops::Memory) -> ImageFault {
        ImageFault::Memory
    }
}
