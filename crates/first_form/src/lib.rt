//! Sources of the first form, the first thin path from source bytes to output: `putchar` may be
//! declared, and then `main` puts constants out and returns one.
//!
//! `read` recognises them both ways, and `image` makes the image that runs what they say. The whole
//! compiler takes the place of this crate once it stands.
#![tactic(auto)]

mod code;
mod constant;
mod cursor;
mod form;
mod lexeme;
mod place;

pub use code::image;
pub use form::{Form, FormFault, read, says_one_thing};
