//! Reading an image: the bytes are checked whole before any memory is taken.
ghost use Rattle.std.specs.Prelude.{◌≡◌, ◌↔◌, ℕ, IfOk, IfErr, MatchResult, Some, None};
ghost use Rattle.image_form.specs.declared.image.Image.{Image};
ghost use Rattle.image_form.specs.Form.{first_wrong};
ghost use Rattle.image_form.specs.Laws.{IsFileOf, IsImageFile, IsCause};

use crate::check::check;
use crate::contents::contents;
use crate::fault::ImageFault;
use crate::image::Image;
use std::alloc::Global;

/// The image that the bytes are.
///
/// `BadImage` comes exactly where the bytes are not of the form of an image, with the first offset at
/// which they are wrong, and before any memory is taken. `Memory` is want of memory for the image.
pub fn read(alloc: Global, bytes: &[u8]) -> Result<Image, ImageFault>
    // What is read has these bytes, so writing it gives them again.
    ensures found { IfOk result (λ i. IsFileOf bytes.now i) }
    // What is written is read again.
    ensures only { (i : Image) → IsFileOf bytes.now i → MatchResult result (λ j. j ≡ i) (λ e. e ≡ ImageFault.Memory) }
    // Each refusal has its cause, and each wrong offset is told.
    ensures refused { IfErr result (λ e. IsCause e bytes.now) }
    ensures bad { (at : ℕ) → first_wrong bytes.now ≡ Some at → result ≡ Err (ImageFault.BadImage at) }
    // No offset is wrong exactly where the bytes are those of an image.
    ensures form { (first_wrong bytes.now ≡ None) ↔ IsImageFile bytes.now }
{
    let header = match check(bytes) {
        Ok(header) => header,
        Err(at) => return Err(ImageFault::BadImage(at as u64)),
    };
    Ok(contents(alloc, bytes, header)?)
}
