//! Words, want of memory and texts. The whole table of operations is computed from the definitions, as a law of `word_ops`;
//! here stand a few of its rows, run by the functions themselves.
use std::test::Fail;
use word_ops::{Memory, Op, Text, apply, machine, narrow};

#[test]
fn operations_give_the_words_of_the_table(rt: HostRuntime) {
    assert_eq!(rt;
        apply(Op::Adds, 0x7fff_ffff, 0xffff_ffff),
        Some(0x7fff_fffe)
    );
    assert_eq!(rt; apply(Op::Adds, 0x7fff_ffff, 1), None);
    assert_eq!(rt; apply(Op::Divs, 0x8000_0000, 0xffff_ffff), None);
    assert_eq!(rt; machine(Op::Divs, 0x8000_0000, 0xffff_ffff), 0x8000_0000);
    assert_eq!(rt; machine(Op::Shrs, 0x7fff_ffff, 33), 0x3fff_ffff);
    assert_eq!(rt; apply(Op::Sext16, 0x8000_ff80, 9), Some(0xffff_ff80));
    assert_eq!(rt; narrow::<12, true>(0x1234_5800), 0xffff_f800);
    assert_eq!(rt; narrow::<31, false>(0xffff_ffff), 0x7fff_ffff);
}

#[test]
fn want_of_memory_and_texts(rt: HostRuntime) -> Result<(), Fail> {
    let text = format!(in rt.alloc(); "{}", Memory)?;
    assert_eq!(rt; text.as_str(), "out of memory");
    let name = Text::from_vec([b'i', b'n', b't'].to_vec(rt.alloc())?);
    let same = Text::from_vec([b'i', b'n', b't'].to_vec(rt.alloc())?);
    let other = Text::from_vec([b'i', b'n'].to_vec(rt.alloc())?);
    assert!(rt; name == same);
    assert!(rt; name != other);
    assert_eq!(rt; other.as_slice(), b"in".as_slice());
    Ok(())
}
