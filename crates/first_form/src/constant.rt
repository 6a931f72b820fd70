//! Constants of `int` in decimal digits.
ghost use Rattle.std.specs.Prelude.{◌≡◌, ◌≢◌, ◌≤◌, ℕ, ◌↔◌, IfSome, IsNone, IsTrue, decimal};

use itoa::Buffer;

/// The greatest `int`.
const INT_MAX: u32 = 2147483647;

/// The number that a text spells in decimal digits with no leading zero, where it is an `int`.
pub(crate) fn constant_of(text: &[u8]) -> Option<u32>
    ensures small { IfSome result (λ n. n ≤ 2147483647) }
    ensures spelled { IfSome result (λ n. text.now ≡ decimal n) }
    ensures none { IsNone result → (n : ℕ) → n ≤ 2147483647 → text.now ≢ decimal n }
{
    let value = parsed(text)?;
    if value <= INT_MAX && is_spelled(text, value) {
        Some(value)
    } else {
        None
    }
}

/// The number that a text reads as, leading zeros and a sign allowed.
fn parsed(text: &[u8]) -> Option<u32>
    ensures { (n : ℕ) → n ≤ 2147483647 → text.now ≡ decimal n → result ≡ Some n }
{
    match std::str::from_utf8(text) {
        Ok(text) => text.parse::<u32>().ok(),
        Err(_) => None,
    }
}

/// Whether a text is the decimal digits of a number.
fn is_spelled(text: &[u8], value: u32) -> bool
    ensures { IsTrue result ↔ (text.now ≡ decimal value) }
{
    let mut buffer = Buffer::new();
    buffer.format(value).as_bytes() == text
}
