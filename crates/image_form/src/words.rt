//! A record as the 16 words of a listing.

ghost use Rattle.std.specs.Prelude.{◌≡◌};
ghost use Rattle.image_form.specs.Limits.{HasSignedFacts};
ghost use Rattle.image_form.specs.Words.{option_word, option_term_word, words_of};

use crate::codes::{
    ARGUMENT, BLOCK, CALL, EDGE, EFFECT, END, EXIT, FUNCTION, GET, NONE, PUT, TERM, end_number,
    store_number, term_word,
};
use term_form::{
    ArgumentRecord, BlockRecord, EdgeRecord, Effect, EffectRecord, EndRecord, FunctionRecord,
    Record, Term, TermRecord,
};

fn option_number(number: Option<u32>) -> u32
    ensures { result ≡ option_word number }
{
    number.unwrap_or(NONE)
}

fn option_term_number(term: Option<Term>) -> u32
    ensures { result ≡ option_term_word term }
{
    match term {
        None => NONE,
        Some(term) => term.0,
    }
}

fn function_words(f: &FunctionRecord) -> [u32; 16]
    ensures { result ≡ words_of (Record.Function f.now) }
{
    let value = u32::from(f.value);
    [
        FUNCTION,
        f.number,
        f.entry,
        f.frame,
        f.parameters,
        value,
        0,
        0,
        0,
        0,
        0,
        0,
        0,
        0,
        0,
        0,
    ]
}

fn block_words(b: &BlockRecord) -> [u32; 16]
    ensures { result ≡ words_of (Record.Block b.now) }
{
    let parent = option_number(b.parent);
    [
        BLOCK, b.number, b.function, parent, b.address, 0, 0, 0, 0, 0, 0, 0, 0, 0, 0, 0,
    ]
}

fn term_words(t: &TermRecord) -> [u32; 16]
    ensures words { result ≡ words_of (Record.Term t.now) }
    ensures signed { HasSignedFacts (Record.Term t.now) }
{
    [
        TERM,
        t.term.0,
        option_number(t.block),
        term_word(t.kind, t.mode),
        t.a,
        t.b,
        t.address,
        t.place,
        t.facts.low.cast_unsigned(),
        t.facts.high.cast_unsigned(),
        t.facts.least,
        t.facts.most,
        t.facts.zeros,
        t.facts.ones,
        t.facts.modulus,
        t.facts.rest,
    ]
}

fn effect_words(e: &EffectRecord) -> [u32; 16]
    ensures { result ≡ words_of (Record.Effect e.now) }
{
    let (code, a, b, c) = match e.effect {
        Effect::Store {
            width,
            address,
            value,
        } => (store_number(width), address.0, value.0, NONE),
        Effect::Call {
            function,
            arguments,
            called,
        } => (CALL, function, arguments, option_term_number(called)),
        Effect::Get { got } => (GET, got.0, NONE, NONE),
        Effect::Put { term } => (PUT, term.0, NONE, NONE),
        Effect::Exit { term } => (EXIT, term.0, NONE, NONE),
    };
    [
        EFFECT, e.block, code, e.address, a, b, c, 0, 0, 0, 0, 0, 0, 0, 0, 0,
    ]
}

fn argument_words(a: &ArgumentRecord) -> [u32; 16]
    ensures { result ≡ words_of (Record.Argument a.now) }
{
    [
        ARGUMENT, a.position, a.term.0, 0, 0, 0, 0, 0, 0, 0, 0, 0, 0, 0, 0, 0,
    ]
}

fn edge_words(e: &EdgeRecord) -> [u32; 16]
    ensures { result ≡ words_of (Record.Edge e.now) }
{
    [
        EDGE,
        e.from,
        e.to,
        e.phi.0,
        e.argument.0,
        0,
        0,
        0,
        0,
        0,
        0,
        0,
        0,
        0,
        0,
        0,
    ]
}

fn end_words(e: &EndRecord) -> [u32; 16]
    ensures { result ≡ words_of (Record.End e.now) }
{
    [
        END,
        e.block,
        end_number(e.kind),
        option_term_number(e.term),
        option_number(e.first),
        option_number(e.second),
        e.address,
        0,
        0,
        0,
        0,
        0,
        0,
        0,
        0,
        0,
    ]
}

/// The words of a record: its kind first, and 0 for each word that its kind does not name.
pub fn record_words(listed: &Record) -> [u32; 16]
    ensures words { result ≡ words_of listed.now }
    ensures signed { HasSignedFacts listed.now }
{
    match listed {
        Record::Function(f) => function_words(f),
        Record::Block(b) => block_words(b),
        Record::Term(t) => term_words(t),
        Record::Effect(e) => effect_words(e),
        Record::Argument(a) => argument_words(a),
        Record::Edge(e) => edge_words(e),
        Record::End(e) => end_words(e),
    }
}
