//! The words that instructions compute: each function is the definition of its name.
ghost use Rattle.std.specs.Prelude.{◌≡◌, ◌*ℤ◌};
ghost use Rattle.rv_machine.specs.Arithmetic as words;

#[inline(always)]
pub fn sum(a: u32, b: u32) -> u32
    ensures { result ≡ words.sum a b }
{
    a.wrapping_add(b)
}

#[inline(always)]
pub fn difference(a: u32, b: u32) -> u32
    ensures { result ≡ words.difference a b }
{
    a.wrapping_sub(b)
}

#[inline(always)]
pub fn less(a: u32, b: u32) -> u32
    ensures { result ≡ words.less a b }
{
    u32::from(a.cast_signed() < b.cast_signed())
}

#[inline(always)]
pub fn less_unsigned(a: u32, b: u32) -> u32
    ensures { result ≡ words.less_unsigned a b }
{
    u32::from(a < b)
}

#[inline(always)]
pub fn shifted_left(a: u32, b: u32) -> u32
    ensures { result ≡ words.shifted_left a b }
{
    a << (b % 32)
}

#[inline(always)]
pub fn shifted_right(a: u32, b: u32) -> u32
    ensures { result ≡ words.shifted_right a b }
{
    a >> (b % 32)
}

#[inline(always)]
pub fn shifted_right_signed(a: u32, b: u32) -> u32
    ensures { result ≡ words.shifted_right_signed a b }
{
    (a.cast_signed() >> (b % 32)).cast_unsigned()
}

#[inline(always)]
pub fn product(a: u32, b: u32) -> u32
    ensures { result ≡ words.product a b }
{
    a.wrapping_mul(b)
}

/// The high word of a product of 64 bits.
#[inline(always)]
fn high_word(product: i64) -> u32
    ensures { result ≡ words.high_word product }
{
    (product.cast_unsigned() >> 32) as u32
}

/// The product of two words read as signed.
#[inline(always)]
fn signed_product(a: u32, b: u32) -> i64
    ensures { result ≡ (words.signed a *ℤ words.signed b) }
{
    i64::from(a.cast_signed()) * i64::from(b.cast_signed())
}

#[inline(always)]
pub fn high_product(a: u32, b: u32) -> u32
    ensures { result ≡ words.high_product a b }
{
    high_word(signed_product(a, b))
}

#[inline(always)]
pub fn high_product_mixed(a: u32, b: u32) -> u32
    ensures { result ≡ words.high_product_mixed a b }
{
    high_word(i64::from(a.cast_signed()) * i64::from(b))
}

#[inline(always)]
pub fn high_product_unsigned(a: u32, b: u32) -> u32
    ensures { result ≡ words.high_product_unsigned a b }
{
    ((u64::from(a) * u64::from(b)) >> 32) as u32
}

#[inline(always)]
pub fn quotient(a: u32, b: u32) -> u32
    ensures { result ≡ words.quotient a b }
{
    if b == 0 {
        u32::MAX
    } else {
        a.cast_signed()
            .wrapping_div(b.cast_signed())
            .cast_unsigned()
    }
}

#[inline(always)]
pub fn quotient_unsigned(a: u32, b: u32) -> u32
    ensures { result ≡ words.quotient_unsigned a b }
{
    if b == 0 { u32::MAX } else { a / b }
}

#[inline(always)]
pub fn remainder(a: u32, b: u32) -> u32
    ensures { result ≡ words.remainder a b }
{
    if b == 0 {
        a
    } else {
        a.cast_signed()
            .wrapping_rem(b.cast_signed())
            .cast_unsigned()
    }
}

#[inline(always)]
pub fn remainder_unsigned(a: u32, b: u32) -> u32
    ensures { result ≡ words.remainder_unsigned a b }
{
    if b == 0 { a } else { a % b }
}
