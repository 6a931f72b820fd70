//! Sources of the first form, and others with the place of the first token that does not fit.
use c_tree::Pos;
use first_form::{FormFault, read};
use std::alloc::Global;
use std::test::Fail;

fn answer(alloc: Global, source: &str) -> Result<(u32, usize, Pos), Fail> {
    match read(alloc, source.as_bytes()) {
        Ok(form) => Ok((form.status, form.puts.len(), Pos { line: 0, column: 0 })),
        Err(FormFault::NotYet(place)) => Ok((0, 0, place)),
        Err(FormFault::Memory) => Err("out of memory".into()),
    }
}

#[test]
fn reads_and_refuses(rt: HostRuntime) -> Result<(), Fail> {
    let fits = [
        (
            "int putchar(int); int main(void) { putchar(72); return 7; }",
            7,
            1,
        ),
        ("int main(void){return 300;}", 300, 0),
        (
            "int putchar(int);int main(void){putchar(97);putchar(98);putchar(99);return 0;}",
            0,
            3,
        ),
        (
            "\tint\r\nmain\x0b(\x0cvoid ) { return\n2147483647 ; }",
            2147483647,
            0,
        ),
    ];
    for (source, status, count) in fits {
        let got = answer(rt.alloc(), source)?;
        assert_eq!(rt;
            got,
            (status, count, Pos { line: 0, column: 0 }),
            "{source}"
        );
    }
    let unfit = [
        ("int main(void){return 2147483648;}", 1, 23),
        ("int main(void){putchar(65);return 0;}", 1, 16),
        ("int main(void){}", 1, 16),
        ("", 1, 1),
        ("int main(void){return 00;}", 1, 23),
        ("int main(void){return +1;}", 1, 23),
        ("int main(void)\n{return 1}\n", 2, 10),
        ("int main(void){return 1;} int", 1, 27),
        ("int main(void){return 1;\n ", 2, 2),
        ("int putchar(int);\nint putchar(int);", 2, 5),
        ("intmain(void){return 1;}", 1, 1),
    ];
    for (source, line, column) in unfit {
        let got = answer(rt.alloc(), source)?;
        assert_eq!(rt; got, (0, 0, Pos { line, column }), "{source}");
    }
    Ok(())
}

#[test]
fn keeps_the_constants_in_order(rt: HostRuntime) -> Result<(), Fail> {
    let source = b"int putchar(int);int main(void){putchar(97);putchar(0);return 5;}";
    match read(rt.alloc(), source) {
        Ok(form) => assert_eq!(rt; form.puts.as_slice(), [97, 0].as_slice()),
        Err(_) => panic!(rt; "a source of the first form is refused"),
    }
    Ok(())
}
