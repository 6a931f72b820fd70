//! Images: a program with its data and its listing, as the bytes of a file.
//!
//! All numbers are words of 32 bits, low byte first.
//!
//! | Offset | Field | Must be |
//! |---|---|---|
//! | 0 | magic | `RVI1`, byte by byte |
//! | 4 | words of text | at most 2^28 |
//! | 8 | bytes of data | at most 2^24 |
//! | 12 | bytes of stack | at most 2^30, a multiple of 8 |
//! | 16 | entry | a multiple of 4 inside the addresses of the text, which begin at 0x10000 |
//! | 20 | number of records | |
//! | 24 | text, data, records of 16 words | the end of the file follows |
//!
//! Bytes are wrong at the first offset that breaks the table, in this order: a file that ends early at
//! its length, one that goes on at the first byte past its end, a number or a word of a record at its
//! own offset. A word of a record is wrong where it is no kind of record, is not named by its kind and
//! not 0, or is no code of the list that its kind has for it. No check crosses records.
#![tactic(auto)]

mod check;
mod codes;
mod contents;
mod examples;
mod fault;
mod image;
mod reading;
mod words;
mod writing;

pub use examples::wrong_offsets;
pub use fault::ImageFault;
pub use image::Image;
pub use reading::read;
pub use writing::write;
