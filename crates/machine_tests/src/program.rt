//! Whole calls of the program over memory, each with the status, the output and the line that it must have: each command,
//! each refusal, and each fault of the outside.

use ccai_io::{MemShelf, MemSink, MemSource};
use std::alloc::Global;
use std::process::Abort;
use std::test::Fail;
use top_call::drive;
use word_ops::Memory;

/// A call of the program where the shelf has one file, `a`, and what it comes to.
#[derive(Clone, Copy)]
struct Call {
    name: &'static str,
    words: &'static [&'static str],
    bytes: &'static [u8],
    input: &'static [u8],
    failing: Failing,
    status: u8,
    out: &'static str,
    err: &'static str,
}

/// The numbers of the calls of the shelf, the input and the output that fail, where they are not 0.
#[derive(Clone, Copy)]
struct Failing {
    take: u64,
    get: u64,
    put: u64,
}

const THREE: &[u8] =
    b"int putchar(int);int main(void){putchar(97);putchar(98);putchar(99);return 0;}";

const EXIT_300: &[u8] =
    b"RVI1\x03\0\0\0\0\0\0\0\0\0\0\0\0\0\x01\0\0\0\0\0\x93\x08\x30\0\x13\x05\xc0\x12\x73\0\0\0";

const ILLEGAL: &[u8] = b"RVI1\x01\0\0\0\0\0\0\0\0\0\0\0\0\0\x01\0\0\0\0\0\0\0\0\0";

// get; put; get; exit with what was got
const ECHO: &[u8] = b"RVI1\x08\0\0\0\0\0\0\0\0\0\0\0\0\0\x01\0\0\0\0\0\
\x93\x08\x10\0\x73\0\0\0\x93\x08\x20\0\x73\0\0\0\x93\x08\x10\0\x73\0\0\0\x93\x08\x30\0\x73\0\0\0";

const CALLS: [Call; 23] = [
    Call {
        name: "a constant is put out, and one is returned",
        words: &["exec", "a"],
        bytes: b"int putchar(int); int main(void) { putchar(72); return 7; }",
        input: b"",
        failing: Failing {
            take: 0,
            get: 0,
            put: 0,
        },
        status: 7,
        out: "H",
        err: "",
    },
    Call {
        name: "a status counts modulo 256",
        words: &["exec", "a"],
        bytes: b"int main(void){return 300;}",
        input: b"",
        failing: Failing {
            take: 0,
            get: 0,
            put: 0,
        },
        status: 44,
        out: "",
        err: "",
    },
    Call {
        name: "three constants",
        words: &["exec", "a"],
        bytes: THREE,
        input: b"",
        failing: Failing {
            take: 0,
            get: 0,
            put: 0,
        },
        status: 0,
        out: "abc",
        err: "",
    },
    Call {
        name: "a constant that is no int",
        words: &["exec", "a"],
        bytes: b"int main(void){return 2147483648;}",
        input: b"",
        failing: Failing {
            take: 0,
            get: 0,
            put: 0,
        },
        status: 65,
        out: "",
        err: "ccai: 1:23: NotYet\n",
    },
    Call {
        name: "putchar without its declaration",
        words: &["exec", "a"],
        bytes: b"int main(void){putchar(65);return 0;}",
        input: b"",
        failing: Failing {
            take: 0,
            get: 0,
            put: 0,
        },
        status: 65,
        out: "",
        err: "ccai: 1:16: NotYet\n",
    },
    Call {
        name: "no return",
        words: &["exec", "a"],
        bytes: b"int main(void){}",
        input: b"",
        failing: Failing {
            take: 0,
            get: 0,
            put: 0,
        },
        status: 65,
        out: "",
        err: "ccai: 1:16: NotYet\n",
    },
    Call {
        name: "an empty source",
        words: &["exec", "a"],
        bytes: b"",
        input: b"",
        failing: Failing {
            take: 0,
            get: 0,
            put: 0,
        },
        status: 65,
        out: "",
        err: "ccai: 1:1: NotYet\n",
    },
    Call {
        name: "no word",
        words: &[],
        bytes: b"",
        input: b"",
        failing: Failing {
            take: 0,
            get: 0,
            put: 0,
        },
        status: 64,
        out: "",
        err: "ccai: usage\n",
    },
    Call {
        name: "no file",
        words: &["exec"],
        bytes: b"",
        input: b"",
        failing: Failing {
            take: 0,
            get: 0,
            put: 0,
        },
        status: 64,
        out: "",
        err: "ccai: usage\n",
    },
    Call {
        name: "two files",
        words: &["exec", "a", "b"],
        bytes: b"",
        input: b"",
        failing: Failing {
            take: 0,
            get: 0,
            put: 0,
        },
        status: 64,
        out: "",
        err: "ccai: usage\n",
    },
    Call {
        name: "an unknown command",
        words: &["frob", "a"],
        bytes: b"",
        input: b"",
        failing: Failing {
            take: 0,
            get: 0,
            put: 0,
        },
        status: 64,
        out: "",
        err: "ccai: usage\n",
    },
    Call {
        name: "a word that begins as an option",
        words: &["exec", "-a"],
        bytes: b"",
        input: b"",
        failing: Failing {
            take: 0,
            get: 0,
            put: 0,
        },
        status: 64,
        out: "",
        err: "ccai: usage\n",
    },
    Call {
        name: "an option",
        words: &["run", "--steps"],
        bytes: b"",
        input: b"",
        failing: Failing {
            take: 0,
            get: 0,
            put: 0,
        },
        status: 64,
        out: "",
        err: "ccai: usage\n",
    },
    Call {
        name: "a missing file",
        words: &["exec", "nope.c"],
        bytes: b"",
        input: b"",
        failing: Failing {
            take: 0,
            get: 0,
            put: 0,
        },
        status: 66,
        out: "",
        err: "ccai: missing nope.c\n",
    },
    Call {
        name: "a shelf that fails",
        words: &["exec", "a"],
        bytes: b"",
        input: b"",
        failing: Failing {
            take: 1,
            get: 0,
            put: 0,
        },
        status: 68,
        out: "",
        err: "ccai: read fault\n",
    },
    Call {
        name: "a sink that fails at call 3 keeps what was put",
        words: &["exec", "a"],
        bytes: THREE,
        input: b"",
        failing: Failing {
            take: 0,
            get: 0,
            put: 3,
        },
        status: 69,
        out: "ab",
        err: "ccai: write fault\n",
    },
    Call {
        name: "an image that ends with status 300",
        words: &["run", "a"],
        bytes: EXIT_300,
        input: b"",
        failing: Failing {
            take: 0,
            get: 0,
            put: 0,
        },
        status: 44,
        out: "",
        err: "",
    },
    Call {
        name: "an image of a word that is no instruction",
        words: &["run", "a"],
        bytes: ILLEGAL,
        input: b"",
        failing: Failing {
            take: 0,
            get: 0,
            put: 0,
        },
        status: 72,
        out: "",
        err: "ccai: trap at 00010000\n",
    },
    Call {
        name: "an image that ends early",
        words: &["run", "a"],
        bytes: b"RVI1\x01\0\0\0\0\0\0\0\0\0\0\0\0\0\x01\0\0\0\0\0\0\0\0",
        input: b"",
        failing: Failing {
            take: 0,
            get: 0,
            put: 0,
        },
        status: 67,
        out: "",
        err: "ccai: bad image at 27\n",
    },
    Call {
        name: "an empty image",
        words: &["run", "a"],
        bytes: b"",
        input: b"",
        failing: Failing {
            take: 0,
            get: 0,
            put: 0,
        },
        status: 67,
        out: "",
        err: "ccai: bad image at 0\n",
    },
    Call {
        name: "another magic",
        words: &["run", "a"],
        bytes: b"RVI2",
        input: b"",
        failing: Failing {
            take: 0,
            get: 0,
            put: 0,
        },
        status: 67,
        out: "",
        err: "ccai: bad image at 3\n",
    },
    Call {
        name: "an image that reads to the end",
        words: &["run", "a"],
        bytes: ECHO,
        input: b"x",
        failing: Failing {
            take: 0,
            get: 0,
            put: 0,
        },
        status: 255,
        out: "x",
        err: "",
    },
    Call {
        name: "a source that fails at call 2",
        words: &["run", "a"],
        bytes: ECHO,
        input: b"x",
        failing: Failing {
            take: 0,
            get: 2,
            put: 0,
        },
        status: 68,
        out: "x",
        err: "ccai: read fault\n",
    },
];

fn expect_call(rt: &impl Abort, alloc: Global, call: &Call) -> Result<(), Memory> {
    let mut shelf = MemShelf::new(alloc);
    shelf.put_file("a", call.bytes)?;
    shelf.fail_at(call.failing.take)?;
    let mut input = MemSource::new(alloc, Vec::from_slice(alloc, call.input)?);
    input.fail_at(call.failing.get)?;
    let mut out = MemSink::new(alloc, 1000)?;
    out.fail_at(call.failing.put, 0)?;
    let mut err = MemSink::new(alloc, 1000)?;
    let status = drive(
        alloc, call.words, &mut shelf, &mut input, &mut out, &mut err,
    );
    assert_eq!(rt; status, call.status, "the status of {}", call.name);
    assert_eq!(rt;
        out.bytes(),
        call.out.as_bytes(),
        "the output of {}",
        call.name
    );
    assert_eq!(rt;
        err.bytes(),
        call.err.as_bytes(),
        "the line of {}",
        call.name
    );
    Ok(())
}

#[test]
fn calls_come_to_what_they_must(rt: HostRuntime) -> Result<(), Fail> {
    for call in CALLS {
        expect_call(&rt, rt.alloc(), &call)?;
    }
    Ok(())
}
