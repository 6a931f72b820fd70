//! The first offset at which bytes are not of the form of an image.

ghost use Rattle.std.specs.Prelude.{◌≡◌, ◌+◌, ◌*◌, ◌<◌, ◌≤◌, ◌^◌, length, slice_index, IsOk, IsTrue, IfOk, MatchResult, None, Some};
ghost use Rattle.image_form.specs.Form.{word_at, reaches, unless, byte_is, number_is, is_entry, header_wrong, words_wrong, records_wrong, ends, first_wrong, records_start};
ghost use Rattle.image_form.specs.Rightness.{words_named, is_right, is_used};
ghost use Rattle.image_form.specs.Checked.{wrong_of};
ghost use Rattle.image_form.specs.Header.{IsHeader};

use crate::codes::{
    ARGUMENT, BLOCK, CALL, EDGE, EFFECT, END, EXIT, FUNCTION, JUMP, NONE, STOP, STORE_BYTE, TERM,
    is_from, is_term_word,
};

/// At most so many words of text.
const MOST_WORDS: u32 = 1 << 28;

/// At most so many bytes of data.
const MOST_DATA: u32 = 1 << 24;

/// At most so many bytes of stack.
const MOST_STACK: u32 = 1 << 30;

/// The address of the first word of the text.
const TEXT_START: u32 = 0x1_0000;

/// The bytes of a record.
pub const RECORD_BYTES: usize = 64;

/// The numbers before the text.
#[derive(Clone, Copy)]
pub struct Header {
    /// words of text
    pub words: u32,
    /// bytes of data
    pub statics: u32,
    /// bytes of stack
    pub stack: u32,
    /// the address of the first instruction
    pub entry: u32,
    /// how many records there are
    pub records: u32,
}

/// Bytes that end before a place are wrong at their length.
fn reach(bytes: &[u8], to: usize) -> Result<(), usize>
    ensures value { wrong_of result ≡ reaches bytes.now to }
    ensures there { IfOk result (λ _. to ≤ length bytes.now) }
{
    if bytes.len() < to {
        Err(bytes.len())
    } else {
        Ok(())
    }
}

/// An offset is wrong where a test of it fails.
fn require(holds: bool, at: usize) -> Result<(), usize>
    ensures { wrong_of result ≡ unless at holds }
{
    if holds { Ok(()) } else { Err(at) }
}

fn magic_byte(bytes: &[u8], at: usize, value: u8) -> Result<(), usize>
    requires { at < 2 ^ 32 }
    ensures { wrong_of result ≡ byte_is bytes.now at value }
{
    reach(bytes, at + 1)?;
    require(bytes[at] == value, at)
}

/// The number at an offset, low byte first.
#[tactic(auto, unfolding(crate::specs::Form::word_at))]
pub fn number(bytes: &[u8], at: usize) -> u32
    requires { at + 4 ≤ length bytes.now }
    ensures { result ≡ word_at bytes.now at }
{
    u32::from_le_bytes([bytes[at], bytes[at + 1], bytes[at + 2], bytes[at + 3]])
}

/// The number at an offset, where the bytes reach so far.
fn checked_number(bytes: &[u8], at: usize) -> Result<u32, usize>
    requires { at < 2 ^ 62 }
    ensures value { wrong_of result ≡ reaches bytes.now (at + 4) }
    ensures there { IfOk result (λ n. (at + 4 ≤ length bytes.now) × (n ≡ word_at bytes.now at)) }
{
    reach(bytes, at + 4)?;
    Ok(number(bytes, at))
}

/// Whether an address is a multiple of 4 among those of a text of so many words.
fn is_in_text(words: u32, entry: u32) -> bool
    requires { words ≤ 2 ^ 28 }
    ensures { result ≡ is_entry words entry }
{
    TEXT_START <= entry && entry < TEXT_START + 4 * words && entry % 4 == 0
}

/// Checks the header.
#[tactic(auto, unfolding(crate::specs::Form::header_wrong))]
fn check_header(bytes: &[u8]) -> Result<Header, usize>
    ensures value { wrong_of result ≡ header_wrong bytes.now }
    ensures found { IfOk result (λ h. IsHeader bytes.now h) }
{
    magic_byte(bytes, 0, b'R')?;
    magic_byte(bytes, 1, b'V')?;
    magic_byte(bytes, 2, b'I')?;
    magic_byte(bytes, 3, b'1')?;
    let words = checked_number(bytes, 4)?;
    require(words <= MOST_WORDS, 4)?;
    let statics = checked_number(bytes, 8)?;
    require(statics <= MOST_DATA, 8)?;
    let stack = checked_number(bytes, 12)?;
    require(stack <= MOST_STACK && stack % 8 == 0, 12)?;
    let entry = checked_number(bytes, 16)?;
    require(is_in_text(words, entry), 16)?;
    let records = checked_number(bytes, 20)?;
    Ok(Header {
        words,
        statics,
        stack,
        entry,
        records,
    })
}

/// The number at an offset, 0 standing for bytes past the end.
#[tactic(auto, unfolding(crate::specs::Form::word_at))]
fn padded_number(bytes: &[u8], at: usize) -> u32
    requires { at < 2 ^ 63 }
    ensures { result ≡ word_at bytes.now at }
{
    u32::from_le_bytes([
        byte_or_zero(bytes, at),
        byte_or_zero(bytes, at + 1),
        byte_or_zero(bytes, at + 2),
        byte_or_zero(bytes, at + 3),
    ])
}

fn byte_or_zero(bytes: &[u8], at: usize) -> u8
    ensures { result ≡ slice_index bytes.now at }
{
    bytes.get(at).copied().unwrap_or(0)
}

/// How many words a record of a kind names, the kind among them.
fn words_of_kind(kind: u32) -> u32
    ensures { result ≡ words_named kind }
{
    match kind {
        FUNCTION => 6,
        BLOCK => 5,
        TERM => 16,
        EFFECT => 7,
        ARGUMENT => 3,
        EDGE => 5,
        _ => 7,
    }
}

/// Whether an effect uses the word at a place: all use a first, stores and calls a second, calls a third.
fn uses(effect: u32, place: u32) -> bool
    ensures { result ≡ is_used effect place }
{
    place == 4 || place == 5 && effect <= CALL || place == 6 && effect == CALL
}

/// Whether the word at a place is right in a record of this kind, which for an effect has this code.
fn is_right_word(kind: u32, effect: u32, place: u32, word: u32) -> bool
    ensures { result ≡ is_right kind effect place word }
{
    if place == 0 {
        return is_from(FUNCTION, END, word);
    }
    if words_of_kind(kind) <= place {
        return word == 0;
    }
    match (kind, place) {
        (FUNCTION, 5) => word <= 1,
        (TERM, 3) => is_term_word(word),
        (EFFECT, 2) => is_from(STORE_BYTE, EXIT, word),
        (EFFECT, 4..) => uses(effect, place) || word == NONE,
        (END, 2) => is_from(JUMP, STOP, word),
        _ => true,
    }
}

/// Checks the word at a place of the record at an offset, which has this kind.
fn check_word(bytes: &[u8], at: usize, kind: u32, effect: u32, place: u32) -> Result<(), usize>
    requires start { at < 2 ^ 61 }
    ensures { wrong_of result ≡ number_is bytes.now (at + 4 * place) (is_right kind effect place) }
{
    let offset = at + 4 * place as usize;
    let word = checked_number(bytes, offset)?;
    require(is_right_word(kind, effect, place, word), offset)
}

/// Checks the words of the record at an offset.
fn check_record(bytes: &[u8], at: usize) -> Result<(), usize>
    requires { at < 2 ^ 61 }
    ensures { wrong_of result ≡ words_wrong bytes.now at 0 16 }
{
    let kind = padded_number(bytes, at);
    let effect = padded_number(bytes, at + 8);
    for place in 0..16 {
        check_word(bytes, at, kind, effect, place)?;
    }
    Ok(())
}

/// Checks so many records, the first of which is at an offset.
fn check_records(bytes: &[u8], start: usize, count: u32) -> Result<(), usize>
    requires { start < 2 ^ 60 }
    ensures { wrong_of result ≡ records_wrong bytes.now start count }
{
    for index in 0..count {
        check_record(bytes, start + RECORD_BYTES * index as usize)?;
    }
    Ok(())
}

impl Header {
    /// The offset at which the records begin.
    pub fn records_start(&self) -> usize
        ensures { result ≡ 24 + 4 * self.now.words + self.now.statics }
    {
        24 + 4 * self.words as usize + self.statics as usize
    }
}

/// Checks bytes against the form of an image.
#[tactic(auto, unfolding(crate::specs::Form::first_wrong))]
pub fn check(bytes: &[u8]) -> Result<Header, usize>
    ensures value { wrong_of result ≡ first_wrong bytes.now }
    ensures found { IfOk result (λ h. IsHeader bytes.now h) }
{
    let header = check_header(bytes)?;
    let start = header.records_start();
    reach(bytes, start)?;
    check_records(bytes, start, header.records)?;
    let end = start + RECORD_BYTES * header.records as usize;
    require(bytes.len() <= end, end)?;
    Ok(header)
}
