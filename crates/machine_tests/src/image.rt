//! Records of each kind in bytes that were written out by hand. The offsets at which wrong bytes are wrong are computed in
//! `specs/Examples.antt`.
use image_form::{Image, ImageFault, read, write};
use std::alloc::{AllocError, Global};
use std::test::Fail;
use term_form::{
    ArgumentRecord, BlockRecord, EdgeRecord, Effect, EffectRecord, EndKind, EndRecord, Facts,
    FunctionRecord, Mode, Record, StoreWidth, Term, TermKind, TermRecord,
};
use word_ops::{Op, Width};

/// The bytes of a file: the magic, and then words with the low byte first.
fn file(alloc: Global, words: &[u32]) -> Result<Vec<u8>, AllocError> {
    let mut bytes = Vec::from_slice(alloc, b"RVI1")?;
    for word in words {
        bytes.extend_from_slice(&word.to_le_bytes())?;
    }
    Ok(bytes)
}

/// One word of text, then 8 bytes of data, then a record of these words and zeros behind them.
fn with_record(alloc: Global, words: &[u32]) -> Result<Vec<u8>, AllocError> {
    let mut bytes = file(
        alloc,
        &[1, 8, 16, 0x1_0000, 1, 0x73, 0x0403_0201, 0x0807_0605],
    )?;
    for place in 0..16 {
        let word = words.get(place).copied().unwrap_or(0);
        bytes.extend_from_slice(&word.to_le_bytes())?;
    }
    Ok(bytes)
}

/// The facts of the listed term below.
const FACTS: Facts = Facts {
    low: -1,
    high: 10,
    least: 1,
    most: 10,
    zeros: 0xffff_fff0,
    ones: 0,
    modulus: 1,
    rest: 0,
};

/// Records, one at least of each kind, and the words that the form gives them.
const RECORDS: [(Record, [u32; 16]); 12] = [
    (
        Record::Function(FunctionRecord {
            number: 5,
            entry: 0x1_0000,
            frame: 48,
            parameters: 2,
            value: true,
        }),
        [1, 5, 0x1_0000, 48, 2, 1, 0, 0, 0, 0, 0, 0, 0, 0, 0, 0],
    ),
    (
        Record::Block(BlockRecord {
            number: 1,
            function: 5,
            parent: Some(0),
            address: 0x1_0004,
        }),
        [2, 1, 5, 0, 0x1_0004, 0, 0, 0, 0, 0, 0, 0, 0, 0, 0, 0],
    ),
    (
        Record::Block(BlockRecord {
            number: 0,
            function: 5,
            parent: None,
            address: 0x1_0000,
        }),
        [
            2,
            0,
            5,
            0xffff_ffff,
            0x1_0000,
            0,
            0,
            0,
            0,
            0,
            0,
            0,
            0,
            0,
            0,
            0,
        ],
    ),
    (
        Record::Term(TermRecord {
            term: Term(7),
            block: Some(1),
            kind: TermKind::Operate(Op::Adds),
            mode: Mode::After,
            a: 3,
            b: 4,
            address: 0x1_0004,
            place: 8,
            facts: FACTS,
        }),
        [
            3,
            7,
            1,
            0x1_0004,
            3,
            4,
            0x1_0004,
            8,
            0xffff_ffff,
            10,
            1,
            10,
            0xffff_fff0,
            0,
            1,
            0,
        ],
    ),
    (
        Record::Term(TermRecord {
            term: Term(8),
            block: None,
            kind: TermKind::Konst,
            mode: Mode::Ready,
            a: 0xffff_ffff,
            b: 0xffff_ffff,
            address: 0,
            place: 0,
            facts: FACTS,
        }),
        [
            3,
            8,
            0xffff_ffff,
            0x3_0064,
            0xffff_ffff,
            0xffff_ffff,
            0,
            0,
            0xffff_ffff,
            10,
            1,
            10,
            0xffff_fff0,
            0,
            1,
            0,
        ],
    ),
    (
        Record::Term(TermRecord {
            term: Term(9),
            block: Some(1),
            kind: TermKind::Load(Width::Word),
            mode: Mode::At,
            a: 8,
            b: 0,
            address: 0x1_0008,
            place: 36,
            facts: FACTS,
        }),
        [
            3,
            9,
            1,
            0x2_0072,
            8,
            0,
            0x1_0008,
            36,
            0xffff_ffff,
            10,
            1,
            10,
            0xffff_fff0,
            0,
            1,
            0,
        ],
    ),
    (
        Record::Effect(EffectRecord {
            block: 1,
            address: 0x1_0008,
            effect: Effect::Store {
                width: StoreWidth::Half,
                address: Term(7),
                value: Term(8),
            },
        }),
        [
            4,
            1,
            2,
            0x1_0008,
            7,
            8,
            0xffff_ffff,
            0,
            0,
            0,
            0,
            0,
            0,
            0,
            0,
            0,
        ],
    ),
    (
        Record::Effect(EffectRecord {
            block: 1,
            address: 0x1_0008,
            effect: Effect::Call {
                function: 5,
                arguments: 2,
                called: Some(Term(11)),
            },
        }),
        [4, 1, 4, 0x1_0008, 5, 2, 11, 0, 0, 0, 0, 0, 0, 0, 0, 0],
    ),
    (
        Record::Effect(EffectRecord {
            block: 1,
            address: 0x1_0008,
            effect: Effect::Put { term: Term(9) },
        }),
        [
            4,
            1,
            6,
            0x1_0008,
            9,
            0xffff_ffff,
            0xffff_ffff,
            0,
            0,
            0,
            0,
            0,
            0,
            0,
            0,
            0,
        ],
    ),
    (
        Record::Argument(ArgumentRecord {
            position: 1,
            term: Term(8),
        }),
        [5, 1, 8, 0, 0, 0, 0, 0, 0, 0, 0, 0, 0, 0, 0, 0],
    ),
    (
        Record::Edge(EdgeRecord {
            from: 0,
            to: 1,
            phi: Term(5),
            argument: Term(2),
        }),
        [6, 0, 1, 5, 2, 0, 0, 0, 0, 0, 0, 0, 0, 0, 0, 0],
    ),
    (
        Record::End(EndRecord {
            block: 1,
            kind: EndKind::Branch,
            term: Some(Term(7)),
            first: Some(1),
            second: None,
            address: 0x1_000c,
        }),
        [
            7,
            1,
            2,
            7,
            1,
            0xffff_ffff,
            0x1_000c,
            0,
            0,
            0,
            0,
            0,
            0,
            0,
            0,
            0,
        ],
    ),
];

#[test]
fn records_read_and_written(rt: HostRuntime) -> Result<(), Fail> {
    for (listed, words) in &RECORDS {
        let bytes = with_record(rt.alloc(), words)?;
        let image = read(rt.alloc(), &bytes).ok().ok_or("an image")?;
        assert_eq!(rt; image.listing.records.as_slice(), [*listed].as_slice());
        assert_eq!(rt; image.text.as_slice(), [0x73].as_slice());
        assert_eq!(rt;
            image.statics.as_slice(),
            [1, 2, 3, 4, 5, 6, 7, 8].as_slice()
        );
        assert_eq!(rt; (image.stack, image.entry), (16, 0x1_0000));
        assert_eq!(rt; write(rt.alloc(), &image)?, bytes);
    }
    // the greatest number of records, of which none is there
    let none = file(rt.alloc(), &[1, 0, 0, 0x1_0000, 0xffff_ffff, 0])?;
    assert!(rt; matches!(read(rt.alloc(), &none), Err(ImageFault::BadImage(28))));
    Ok(())
}
