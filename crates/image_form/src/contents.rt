//! What bytes of the form of an image hold.

ghost use Rattle.std.specs.Prelude.{◌≡◌, ◌+◌, ◌*◌, ◌/◌, ◌%◌, ◌≤◌, length, IsTrue, IfOk, None};
ghost use Rattle.image_form.specs.Form.{word_at, records_wrong, first_wrong};
ghost use Rattle.image_form.specs.Rightness.{is_term_code};
ghost use Rattle.image_form.specs.Header.{IsHeader};
ghost use Rattle.image_form.specs.Contents.{option_of, option_term_of, facts_at, effect_of, record_of, words_at, records_at, image_at};

use crate::check::{Header, RECORD_BYTES, number};
use crate::codes::{
    ARGUMENT, BLOCK, CALL, EDGE, EFFECT, FUNCTION, GET, NONE, PUT, STORE_BYTE, STORE_HALF,
    STORE_WORD, TERM, end_numbered, term_parts,
};
use crate::image::Image;
use std::alloc::Global;
use term_form::{
    ArgumentRecord, BlockRecord, EdgeRecord, Effect, EffectRecord, EndRecord, Facts,
    FunctionRecord, Listing, Record, StoreWidth, Term, TermRecord,
};
use word_ops::{Items, Memory};

fn option_numbered(word: u32) -> Option<u32>
    ensures { result ≡ option_of word }
{
    if word == NONE { None } else { Some(word) }
}

fn option_term_numbered(word: u32) -> Option<Term>
    ensures { result ≡ option_term_of word }
{
    if word == NONE { None } else { Some(Term(word)) }
}

fn function_at(bytes: &[u8], at: usize) -> FunctionRecord
    requires { at + 64 ≤ length bytes.now }
    ensures { Record.Function result ≡ record_of 1 bytes.now at }
{
    FunctionRecord {
        number: number(bytes, at + 4),
        entry: number(bytes, at + 8),
        frame: number(bytes, at + 12),
        parameters: number(bytes, at + 16),
        value: number(bytes, at + 20) == 1,
    }
}

fn block_at(bytes: &[u8], at: usize) -> BlockRecord
    requires { at + 64 ≤ length bytes.now }
    ensures { Record.Block result ≡ record_of 2 bytes.now at }
{
    BlockRecord {
        number: number(bytes, at + 4),
        function: number(bytes, at + 8),
        parent: option_numbered(number(bytes, at + 12)),
        address: number(bytes, at + 16),
    }
}

fn facts_from(bytes: &[u8], at: usize) -> Facts
    requires { at + 64 ≤ length bytes.now }
    ensures { result ≡ facts_at bytes.now at }
{
    Facts {
        low: number(bytes, at + 32).cast_signed(),
        high: number(bytes, at + 36).cast_signed(),
        least: number(bytes, at + 40),
        most: number(bytes, at + 44),
        zeros: number(bytes, at + 48),
        ones: number(bytes, at + 52),
        modulus: number(bytes, at + 56),
        rest: number(bytes, at + 60),
    }
}

fn term_at(bytes: &[u8], at: usize) -> TermRecord
    requires there { at + 64 ≤ length bytes.now }
    requires code { IsTrue (is_term_code (word_at bytes.now (at + 12))) }
    ensures { Record.Term result ≡ record_of 3 bytes.now at }
{
    let (kind, mode) = term_parts(number(bytes, at + 12));
    TermRecord {
        term: Term(number(bytes, at + 4)),
        block: option_numbered(number(bytes, at + 8)),
        kind,
        mode,
        a: number(bytes, at + 16),
        b: number(bytes, at + 20),
        address: number(bytes, at + 24),
        place: number(bytes, at + 28),
        facts: facts_from(bytes, at),
    }
}

/// The effect of a code, with its three words.
fn effect_numbered(code: u32, a: u32, b: u32, c: u32) -> Effect
    ensures { result ≡ effect_of code a b c }
{
    let store = |width: StoreWidth| Effect::Store {
        width,
        address: Term(a),
        value: Term(b),
    };
    match code {
        STORE_BYTE => store(StoreWidth::Byte),
        STORE_HALF => store(StoreWidth::Half),
        STORE_WORD => store(StoreWidth::Word),
        CALL => Effect::Call {
            function: a,
            arguments: b,
            called: option_term_numbered(c),
        },
        GET => Effect::Get { got: Term(a) },
        PUT => Effect::Put { term: Term(a) },
        _ => Effect::Exit { term: Term(a) },
    }
}

fn effect_at(bytes: &[u8], at: usize) -> EffectRecord
    requires { at + 64 ≤ length bytes.now }
    ensures { Record.Effect result ≡ record_of 4 bytes.now at }
{
    EffectRecord {
        block: number(bytes, at + 4),
        address: number(bytes, at + 12),
        effect: effect_numbered(
            number(bytes, at + 8),
            number(bytes, at + 16),
            number(bytes, at + 20),
            number(bytes, at + 24),
        ),
    }
}

fn argument_at(bytes: &[u8], at: usize) -> ArgumentRecord
    requires { at + 64 ≤ length bytes.now }
    ensures { Record.Argument result ≡ record_of 5 bytes.now at }
{
    ArgumentRecord {
        position: number(bytes, at + 4),
        term: Term(number(bytes, at + 8)),
    }
}

fn edge_at(bytes: &[u8], at: usize) -> EdgeRecord
    requires { at + 64 ≤ length bytes.now }
    ensures { Record.Edge result ≡ record_of 6 bytes.now at }
{
    EdgeRecord {
        from: number(bytes, at + 4),
        to: number(bytes, at + 8),
        phi: Term(number(bytes, at + 12)),
        argument: Term(number(bytes, at + 16)),
    }
}

fn end_at(bytes: &[u8], at: usize) -> EndRecord
    requires { at + 64 ≤ length bytes.now }
    ensures { Record.End result ≡ record_of 7 bytes.now at }
{
    EndRecord {
        block: number(bytes, at + 4),
        kind: end_numbered(number(bytes, at + 8)),
        term: option_term_numbered(number(bytes, at + 12)),
        first: option_numbered(number(bytes, at + 16)),
        second: option_numbered(number(bytes, at + 20)),
        address: number(bytes, at + 24),
    }
}

/// The record at an offset.
fn record_at(bytes: &[u8], at: usize) -> Record
    requires there { at + 64 ≤ length bytes.now }
    requires code { word_at bytes.now at ≡ 3 → IsTrue (is_term_code (word_at bytes.now (at + 12))) }
    ensures { result ≡ record_of (word_at bytes.now at) bytes.now at }
{
    match number(bytes, at) {
        FUNCTION => Record::Function(function_at(bytes, at)),
        BLOCK => Record::Block(block_at(bytes, at)),
        TERM => Record::Term(term_at(bytes, at)),
        EFFECT => Record::Effect(effect_at(bytes, at)),
        ARGUMENT => Record::Argument(argument_at(bytes, at)),
        EDGE => Record::Edge(edge_at(bytes, at)),
        _ => Record::End(end_at(bytes, at)),
    }
}

/// So many numbers from an offset on.
fn numbers_at(alloc: Global, bytes: &[u8], at: usize, count: u32) -> Result<Vec<u32>, Memory>
    requires { at + 4 * count ≤ length bytes.now }
    ensures { IfOk result (λ v. v.items ≡ words_at bytes.now at count) }
{
    let mut numbers = Vec::with_capacity(alloc, count as usize)?;
    for index in 0..count {
        numbers.push(number(bytes, at + 4 * index as usize))?;
    }
    Ok(numbers)
}

/// So many records from an offset on.
fn records_from(alloc: Global, bytes: &[u8], at: usize, count: u32) -> Result<Vec<Record>, Memory>
    requires there { at + 64 * count ≤ length bytes.now }
    requires right { records_wrong bytes.now at count ≡ None }
    ensures { IfOk result (λ v. v.items ≡ records_at bytes.now at count) }
{
    let mut records = Vec::with_capacity(alloc, count as usize)?;
    for index in 0..count {
        records.push(record_at(bytes, at + RECORD_BYTES * index as usize))?;
    }
    Ok(records)
}

/// The image that bytes of the form are, given the numbers before its text.
pub fn contents(alloc: Global, bytes: &[u8], header: Header) -> Result<Image, Memory>
    requires right { first_wrong bytes.now ≡ None }
    requires header { IsHeader bytes.now header }
    ensures { IfOk result (λ i. i ≡ image_at bytes.now) }
{
    let data = 24 + 4 * header.words as usize;
    let start = header.records_start();
    let text = numbers_at(alloc, bytes, 24, header.words)?;
    let statics = Vec::from_slice(alloc, &bytes[data..start])?;
    let records = records_from(alloc, bytes, start, header.records)?;
    Ok(Image {
        text: Items::from_vec(text),
        statics: Items::from_vec(statics),
        stack: header.stack,
        entry: header.entry,
        listing: Listing {
            records: Items::from_vec(records),
        },
    })
}
