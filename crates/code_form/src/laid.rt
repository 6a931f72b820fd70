//! A program laid out.

use term_form::Listing;
use word_ops::Items;

/// A program as it is loaded: what an image holds.
#[derive(Drop)]
pub struct Laid {
    /// the words of its instructions, from 0x10000 on
    pub text: Items<u32>,
    /// the bytes of its static objects
    pub statics: Items<u8>,
    /// how many bytes its stack has
    pub stack: u32,
    /// the address at which it is entered
    pub entry: u32,
    /// what it says of its own text
    pub listing: Listing,
}
