//! Places in a source: the line and the column that come behind some bytes, both counted from 1.
//! Faults of all later layers are told by these places.

ghost use Rattle.std.specs.Prelude.{◌≡◌, ◌≤◌, ◌<◌, ◌+◌, ◌^◌, length};
ghost use Rattle.c_lexer.specs.Tokens as spec;

use c_tree::Pos;

/// The place after a byte: a newline ends its line, and any other byte is a column.
fn place_after_byte(place: Pos, b: u8) -> Pos
    requires line { place.line + 1 < 2 ^ 32 }
    requires column { place.column + 1 < 2 ^ 32 }
    ensures { result ≡ spec.place_after_byte place b }
{
    if b == b'\n' {
        Pos {
            line: place.line + 1,
            column: 1,
        }
    } else {
        Pos {
            line: place.line,
            column: place.column + 1,
        }
    }
}

/// The place after some bytes.
pub fn place_after(place: Pos, bytes: &[u8]) -> Pos
    requires lines { place.line + length bytes.now < 2 ^ 32 }
    requires columns { place.column + length bytes.now < 2 ^ 32 }
    ensures value { result ≡ spec.place_after place bytes.now }
    ensures line { result.line ≤ place.line + length bytes.now }
    ensures column { result.column ≤ place.column + length bytes.now }
{
    let mut place = place;
    for b in bytes {
        place = place_after_byte(place, *b);
    }
    place
}
