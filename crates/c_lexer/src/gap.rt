//! What may stand between tokens (C11 5.1.1.2p3, 6.4p3): white space, comments, and the lines that a preprocessor leaves.
//! Each function tells how many bytes in front belong to it.

ghost use Rattle.std.specs.Prelude.{◌≡◌, ◌≤◌, ◌+◌, length, IfSome, false};
ghost use Rattle.c_lexer.specs.Scan as scan;
ghost use Rattle.c_lexer.specs.WhiteSpace as spec;

/// White space as in C11, and carriage return.
fn is_white_space(b: u8) -> bool
    ensures { result ≡ spec.is_white_space b }
{
    matches!(b, b' ' | b'\t' | b'\n' | 0x0b | 0x0c | b'\r')
}

/// How many bytes in front stand before the next newline.
fn line_len(bytes: &[u8]) -> usize
    ensures value { result ≡ scan.line_len bytes.now }
    ensures within { result ≤ length bytes.now }
{
    bytes.iter().take_while(|b| **b != b'\n').count()
}

/// The length of a comment behind its `/*`, with its `*/`, if it ends.
fn comment_len(bytes: &[u8]) -> Option<usize>
    ensures value { result ≡ scan.comment_len false bytes.now }
    ensures within { IfSome result (λ n. n ≤ length bytes.now) }
{
    let mut after_star = false;
    let mut length: usize = 0;
    let mut rest = bytes;
    'inside: while let [b, more @ ..] = rest {
        length += 1;
        if after_star && *b == b'/' {
            return Some(length);
        }
        after_star = *b == b'*';
        rest = more;
    }
    None
}

/// What follows the blanks in front.
fn past_blanks(bytes: &[u8]) -> &[u8]
    ensures { result.now ≡ spec.past_blanks bytes.now }
{
    let mut rest = bytes;
    'blanks: while let [b' ' | b'\t', more @ ..] = rest {
        rest = more;
    }
    rest
}

/// Whether the line in front is one that a preprocessor leaves: `#`, then a digit or `pragma`.
fn opens_marker(bytes: &[u8]) -> bool
    ensures { result ≡ spec.opens_marker bytes.now }
{
    match past_blanks(bytes) {
        [b'#', line @ ..] => {
            let line = past_blanks(line);
            matches!(line, [b'0'..=b'9', ..]) || line.starts_with(b"pragma")
        }
        _ => false,
    }
}

/// The length of white space or a comment in front.
fn space_len(bytes: &[u8]) -> usize
    ensures value { result ≡ scan.space_len bytes.now }
    ensures within { result ≤ length bytes.now }
{
    match bytes {
        [b'/', b'/', ..] => line_len(bytes),
        [b'/', b'*', comment @ ..] => match comment_len(comment) {
            None => 0,
            Some(length) => 2 + length,
        },
        [b, ..] if is_white_space(*b) => 1,
        _ => 0,
    }
}

/// How many bytes in front stand between tokens: one of white space, a comment or a marker line.
pub fn gap_len(at_line_start: bool, bytes: &[u8]) -> usize
    ensures value { result ≡ scan.gap_len at_line_start bytes.now }
    ensures within { result ≤ length bytes.now }
{
    if at_line_start && opens_marker(bytes) {
        line_len(bytes)
    } else {
        space_len(bytes)
    }
}
