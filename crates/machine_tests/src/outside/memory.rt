//! The types in memory, each once through its trait.
use super::{expect_byte, expect_file, expect_put};
use ccai_io::{Failed, MemShelf, MemSink, MemSource, ShelfFault, SureShelf, SureSource};
use std::test::Fail;

#[test]
fn shelves_give_their_files_and_fail_where_they_are_told(rt: HostRuntime) -> Result<(), Fail> {
    let mut shelf = MemShelf::new(rt.alloc());
    shelf.put_file("a.c", b"first")?;
    shelf.put_file("b.c", b"other")?;
    shelf.put_file("a.c", b"second")?;
    shelf.fail_at(1)?;
    shelf.fail_at(5)?;
    let missing = Err(ShelfFault::Missing);
    let failed = Err(ShelfFault::Failed);
    expect_file(&rt, &mut shelf, rt.alloc(), "a.c", failed);
    expect_file(&rt, &mut shelf, rt.alloc(), "a.c", Ok(b"second"));
    expect_file(&rt, &mut shelf, rt.alloc(), "b.c", Ok(b"other"));
    expect_file(&rt, &mut shelf, rt.alloc(), "nope.c", missing);
    expect_file(&rt, &mut shelf, rt.alloc(), "nope.c", failed);
    let mut sure = SureShelf::new(rt.alloc());
    sure.put_file("a.c", b"first")?;
    sure.put_file("a.c", b"second")?;
    expect_file(&rt, &mut sure, rt.alloc(), "a.c", Ok(b"second"));
    expect_file(&rt, &mut sure, rt.alloc(), "b.c", missing);
    Ok(())
}

#[test]
fn sources_give_their_bytes_and_then_the_end(rt: HostRuntime) -> Result<(), Fail> {
    let mut source = MemSource::new(rt.alloc(), vec![in rt.alloc(); 7, 0]?);
    source.fail_at(2)?;
    let mut sure = SureSource::new(rt.alloc(), vec![in rt.alloc(); 7, 0]?);
    expect_byte(&rt, &mut source, Ok(Some(7)));
    expect_byte(&rt, &mut source, Err(Failed));
    expect_byte(&rt, &mut sure, Ok(Some(7)));
    for wanted in [Some(0), None, None] {
        expect_byte(&rt, &mut source, Ok(wanted));
        expect_byte(&rt, &mut sure, Ok(wanted));
    }
    Ok(())
}

#[test]
fn sink_keeps_what_it_is_told_and_what_fits(rt: HostRuntime) -> Result<(), Fail> {
    let mut sink = MemSink::new(rt.alloc(), 8)?;
    sink.fail_at(2, 1)?;
    sink.fail_at(2, 3)?;
    sink.fail_at(3, 9)?;
    sink.fail_at(5, 9)?;
    for (piece, wanted, held) in [
        (b"ab".as_slice(), Ok(()), b"ab".as_slice()),
        (b"cde", Err(Failed), b"abc"),
        (b"de", Err(Failed), b"abcde"),
        (b"f", Ok(()), b"abcdef"),
        (b"ghi", Err(Failed), b"abcdefgh"),
        (b"", Ok(()), b"abcdefgh"),
        (b"i", Err(Failed), b"abcdefgh"),
    ] {
        expect_put(&rt, &mut sink, piece, wanted);
        assert_eq!(rt; sink.bytes(), held);
    }
    Ok(())
}
