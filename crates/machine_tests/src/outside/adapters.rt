//! The adapters over real files, standard input and standard output, and a reader that is interrupted.
use super::{expect_byte, expect_file, expect_put};
use ccai_io::{Failed, FileShelf, ShelfFault, StdSink, StdSource};
use std::io::{ErrorKind, Read};
use std::test::Fail;
use std::{fs, io};

#[test]
fn shelf_over_real_files(rt: HostRuntime) -> Result<(), Fail> {
    let long = vec![in rt.alloc(); 65u8; 10000]?;
    fs::write(&rt, "short.c", b"int x;")?;
    fs::write(&rt, "long.c", long.as_slice())?;
    let mut shelf = FileShelf::new(&rt);
    let missing = Err(ShelfFault::Missing);
    let failed = Err(ShelfFault::Failed);
    expect_file(&rt, &mut shelf, rt.alloc(), "short.c", Ok(b"int x;"));
    expect_file(&rt, &mut shelf, rt.alloc(), "long.c", Ok(&long));
    expect_file(&rt, &mut shelf, rt.alloc(), "nope.c", missing);
    expect_file(&rt, &mut shelf, rt.alloc(), ".", failed);
    Ok(())
}

#[test]
fn source_over_standard_input_and_a_real_file(rt: HostRuntime) -> Result<(), Fail> {
    let mut bytes = vec![in rt.alloc(); 65u8; 5000]?;
    bytes.push(0)?;
    fs::write(&rt, "input", bytes.as_slice())?;
    let mut source = StdSource::new(fs::open(&rt, "input")?);
    for byte in &bytes {
        expect_byte(&rt, &mut source, Ok(Some(*byte)));
    }
    expect_byte(&rt, &mut source, Ok(None));
    expect_byte(&rt, &mut StdSource::new(rt.stdin()), Ok(None));
    let mut folder = StdSource::new(fs::open(&rt, ".")?);
    expect_byte(&rt, &mut folder, Err(Failed));
    Ok(())
}

#[test]
fn sink_over_standard_output_and_a_real_file(rt: HostRuntime) -> Result<(), Fail> {
    expect_put(&rt, &mut StdSink::new(rt.stdout()), b"put\n", Ok(()));
    let mut sink = StdSink::new(fs::create(&rt, "output")?);
    expect_put(&rt, &mut sink, b"ab", Ok(()));
    expect_put(&rt, &mut sink, b"", Ok(()));
    expect_put(&rt, &mut sink, b"c", Ok(()));
    let mut shelf = FileShelf::new(&rt);
    expect_file(&rt, &mut shelf, rt.alloc(), "output", Ok(b"abc"));
    let mut closed = StdSink::new(fs::open(&rt, "output")?);
    expect_put(&rt, &mut closed, b"d", Err(Failed));
    Ok(())
}

// A reader of zeros that is interrupted so many times before each byte.
#[derive(Drop)]
struct Interrupted {
    times: u32,
    left: u32,
}

impl Read for Interrupted {
    fn read(&mut self, buf: &mut [u8]) -> io::Result<usize> {
        if self.left > 0 {
            self.left -= 1;
            return Err(io::Error::from(ErrorKind::Interrupted));
        }
        self.left = self.times;
        Ok(buf.len().min(1))
    }
}

#[test]
fn interrupted_read_is_repeated_a_thousand_times(rt: HostRuntime) {
    let often = Interrupted {
        times: 1000,
        left: 1000,
    };
    let mut source = StdSource::new(often);
    expect_byte(&rt, &mut source, Ok(Some(0)));
    expect_byte(&rt, &mut source, Ok(Some(0)));
    let too_often = Interrupted {
        times: 1001,
        left: 1001,
    };
    let mut source = StdSource::new(too_often);
    expect_byte(&rt, &mut source, Err(Failed));
    expect_byte(&rt, &mut source, Ok(Some(0)));
}
