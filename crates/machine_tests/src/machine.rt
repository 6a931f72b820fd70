//! The machine over a real source and sink, once. What the definitions say of instructions and of small images is computed
//! in `specs/Examples`, and that the code does what they say is its contract.

use ccai_io::{MemSink, MemSource};
use image_form::Image;
use rv_machine::{End, Stepped, load, run, step};
use std::test::Fail;
use term_form::Listing;
use word_ops::Items;

/// Copies the input to the output, and ends with status 7.
const COPY: [u32; 10] = [
    0x0010_0893,
    0x73,
    0xfff0_0293,
    0x0055_0863,
    0x0020_0893,
    0x73,
    0xfe9f_f06f,
    0x0070_0513,
    0x0030_0893,
    0x73,
];

#[test]
fn source_that_fails_stops_the_run_and_loses_nothing(rt: HostRuntime) -> Result<(), Fail> {
    let image = Image {
        text: Items::from_vec(Vec::from_slice(rt.alloc(), &COPY)?),
        statics: Items::from_vec(Vec::from_slice(rt.alloc(), b"abc")?),
        stack: 8,
        entry: 0x10000,
        listing: Listing {
            records: Items::from_vec(Vec::new(rt.alloc())),
        },
    };
    let mut machine = load(rt.alloc(), &image)?;
    let mut input = MemSource::new(rt.alloc(), vec![in rt.alloc(); 104, 101, 121]?);
    input.fail_at(3)?;
    let mut out = MemSink::new(rt.alloc(), 100)?;
    assert_eq!(rt; step(&mut machine, &mut input, &mut out), Stepped::Going);
    assert_eq!(rt; (machine.pc(), machine.register(17)), (0x10004, 1));
    assert_eq!(rt; machine.word(0x10028), Some(0x0063_6261));
    assert_eq!(rt;
        run(&mut machine, &mut input, &mut out, 1000),
        End::ReadFault
    );
    assert_eq!(rt; (machine.pc(), machine.register(10)), (0x10004, 101));
    assert_eq!(rt; out.bytes(), b"he".as_slice());
    assert_eq!(rt; run(&mut machine, &mut input, &mut out, 1000), End::Exit(7));
    assert_eq!(rt; out.bytes(), b"hey".as_slice());
    Ok(())
}
