//! Bits of a word, and numbers read with their sign: what decoding is made of.
ghost use Rattle.std.specs.Prelude.{◌≡◌, ◌+◌, ◌*◌, ◌^◌, ◌<◌, ◌≤◌};
ghost use Rattle.rv_table.specs.Fields.{bits_at, sign};

/// The COUNT bits of a word from bit LOW on.
pub fn field<const LOW: u32, const COUNT: u32>(word: u32) -> u32
    requires count { 1 ≤ COUNT }
    requires place { LOW + COUNT ≤ 32 }
    ensures { result ≡ bits_at LOW COUNT word }
{
    (word >> LOW) & (u32::MAX >> (32 - COUNT))
}

/// A number below 2 * HALF, read as a number with a sign.
pub fn signed<const HALF: u32>(bits: u32) -> i32
    requires half { HALF ≤ 2 ^ 30 }
    requires bits { bits < 2 * HALF }
    ensures { result ≡ sign HALF bits }
{
    if bits < HALF {
        bits as i32
    } else {
        -((2 * HALF - 1 - bits) as i32) - 1
    }
}
