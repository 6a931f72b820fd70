//! Images as data: a program as it is loaded and run, with its listing.
use term_form::Listing;
use word_ops::Items;

/// A program as it is loaded and run.
///
/// The text is loaded at 0x10000, the data at the next multiple of 8, the stack at the multiple of 8
/// after that.
#[derive(Debug, Drop)]
pub struct Image {
    /// the words of the instructions
    pub text: Items<u32>,
    /// the bytes of the data
    pub statics: Items<u8>,
    /// how many bytes the stack has
    pub stack: u32,
    /// the address of the first instruction
    pub entry: u32,
    pub listing: Listing,
}
