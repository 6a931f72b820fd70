//! Sources that nest as deep as the grammar allows, one kind of nesting each, are read and typed within the stack of a test.
//! No rows and no walk.

use c_expr_parser::{ParseFault, expression};
use c_lexer::lex;
use c_tree::Tokens;
use c_types::check;
use c_unit_parser::parse;
use scope_map::ScopeMap;
use std::alloc::Global;
use std::test::Fail;

/// Pieces of a source, of which the second and the fourth stand so many times.
type Nest = ([&'static str; 5], usize);

fn tokens_of(alloc: Global, nest: &Nest) -> Result<Tokens, Fail> {
    let ([before, opening, inner, closing, behind], times) = nest;
    let opened = opening.repeat(alloc, *times)?;
    let closed = closing.repeat(alloc, *times)?;
    let source = format!(in alloc; "{before}{opened}{inner}{closed}{behind}")?;
    if source.len() > 1_000_000 {
        return Err(Fail::from("the source is long"));
    }
    Ok(lex(alloc, source.as_bytes())?)
}

/// Each production and each level of operators is open in its last operand between two brackets: no bracket takes more stack.
const OPERATORS: [&str; 5] = [
    "",
    "a , a = a ? b : a || a && a | a ^ a & a == a < a << a + a * - f ( b , ",
    "a",
    " )",
    "",
];

/// The column where brackets are nested too deeply; 0 where the source is an expression.
fn too_deep_at(alloc: Global, times: usize) -> Result<u32, Fail> {
    let tokens = tokens_of(alloc, &(OPERATORS, times))?;
    let mut names = ScopeMap::new(alloc);
    match expression(alloc, &tokens, 0, &mut names, 0).err() {
        None => Ok(0),
        Some(ParseFault::Nest(at)) => Ok(at.column),
        Some(ParseFault::Syntax(_) | ParseFault::Memory) => Ok(1_000_000),
    }
}

#[test]
fn brackets_nest_256_deep_below_operators_of_each_level(rt: HostRuntime) -> Result<(), Fail> {
    let alloc = rt.alloc();
    assert_eq!(rt; too_deep_at(alloc, 255)?, 0);
    assert_eq!(rt; too_deep_at(alloc, 256)?, 0);
    // behind 256 of them no more may be opened, and `?` comes first
    assert_eq!(rt; too_deep_at(alloc, 257)?, 17_931);
    Ok(())
}

/// Sources that nest as deep as the grammar allows, and one with each level of operators between two brackets: so no source
/// of that nesting has more trees inside one another.
static TYPED: [Nest; 16] = [
    (["int main(void){return ", "(", "0", ")", ";}"], 255),
    (["int main(void){return ", "-(", "0", ")", ";}"], 255),
    (["int main(void){return ", "1+(", "0", ")", ";}"], 255),
    (["int main(void){return ", "(int)(", "0", ")", ";}"], 254),
    (["int main(void){return ", "0?1:(", "0", ")", ";}"], 255),
    (["int main(void){return ", "1?(", "0", "):2", ";}"], 127),
    (
        [
            "int main(void){int a[1];a[0]=0;return ",
            "a[",
            "0",
            "]",
            ";}",
        ],
        255,
    ),
    (
        [
            "int f(int n){return n;}int main(void){return ",
            "f(",
            "0",
            ")",
            ";}",
        ],
        255,
    ),
    (
        ["int main(void){return ", "sizeof(char[", "1", "])", ";}"],
        127,
    ),
    (["int ", "(", "x", ")", ";int main(void){return 0;}"], 256),
    (["int main(void){", "{", "", "}", "return 0;}"], 255),
    (["int main(void){", "while(0)", ";", "", "return 0;}"], 254),
    (["int main(void){", "if(0){", "", "}", "return 0;}"], 127),
    (
        [
            "int main(void){",
            "switch(0){case 0:",
            "",
            "}",
            "return 0;}",
        ],
        255,
    ),
    (
        [
            "int main(void){int x;x=0;return ",
            "(0,x=0?1:0||0&&0|0^0&0==0<0<<0+0*-",
            "x",
            ")",
            ";}",
        ],
        254,
    ),
    // A chain of `else if` leads no deeper.
    (
        [
            "int main(void){if(0);",
            "else if(0);",
            "else;return 0;}",
            "",
            "",
        ],
        10_000,
    ),
];

/// A source has a typed tree: memory is not said to be wanting for it.
fn is_typed(alloc: Global, nest: &Nest) -> Result<bool, Fail> {
    let tokens = tokens_of(alloc, nest)?;
    let unit = parse(alloc, &tokens)?;
    Ok(check(alloc, &unit).is_ok())
}

#[test]
fn sources_nest_as_deep_as_the_grammar_allows(rt: HostRuntime) -> Result<(), Fail> {
    for (row, nest) in TYPED.iter().enumerate() {
        assert!(rt; is_typed(rt.alloc(), nest)?, "row {row}");
    }
    Ok(())
}
