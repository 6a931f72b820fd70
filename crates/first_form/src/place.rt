//! Lines and columns of a source.
use c_tree::Pos;

/// The place just past some bytes of a source.
pub(crate) fn place_past(bytes: &[u8]) -> Pos {
    let lines = bytes.iter().filter(|byte| is_newline(**byte)).count();
    let column = bytes
        .iter()
        .rev()
        .position(|byte| is_newline(*byte))
        .unwrap_or(bytes.len());
    Pos {
        line: counted_from_one(lines),
        column: counted_from_one(column),
    }
}

fn is_newline(byte: u8) -> bool {
    byte == b'\n'
}

fn counted_from_one(count: usize) -> u32 {
    u32::try_from(count).unwrap_or(u32::MAX).saturating_add(1)
}
