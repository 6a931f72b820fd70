//! Numbers in bytes of memory, the lowest byte first: each function is the definition of its name.
ghost use Rattle.std.specs.Prelude.{◌≡◌, ◌+◌, ◌*◌, ◌^◌, ◌<◌, ◌≤◌, length, IfSome};
ghost use Rattle.rv_machine.specs.Bytes as bytes;
ghost use Rattle.rv_machine.specs.Effect.{place_of};
ghost use Rattle.rv_machine.specs.Reading as reading;

/// Where an access of a size lies in memory, which has this many bytes from base on.
#[inline(always)]
pub fn place(base: u32, room: usize, size: u32, at: u32) -> Option<usize>
    requires size { 1 ≤ size }
    requires size_in { size ≤ 4 }
    requires room { base + room ≤ 2 ^ 32 }
    ensures place { result ≡ place_of base room size at }
    ensures within { IfSome result (λ k. k + size ≤ room) }
{
    let offset = at.wrapping_sub(base) as usize;
    if at % size == 0 && offset + (size as usize) <= room {
        Some(offset)
    } else {
        None
    }
}

#[inline(always)]
pub fn byte_in(memory: &[u8], k: usize) -> u32
    requires { k + 1 ≤ length memory.now }
    ensures { result ≡ bytes.byte_in memory.now k }
{
    u32::from(memory[k])
}

#[inline(always)]
pub fn half_in(memory: &[u8], k: usize) -> u32
    requires { k + 2 ≤ length memory.now }
    ensures { result ≡ bytes.half_in memory.now k }
{
    u32::from(memory[k]) + u32::from(memory[k + 1]) * 0x100
}

#[inline(always)]
pub fn word_in(memory: &[u8], k: usize) -> u32
    requires { k + 4 ≤ length memory.now }
    ensures { result ≡ bytes.word_in memory.now k }
{
    u32::from(memory[k])
        + u32::from(memory[k + 1]) * 0x100
        + u32::from(memory[k + 2]) * 0x1_0000
        + u32::from(memory[k + 3]) * 0x100_0000
}

#[inline(always)]
pub fn signed_byte_in(memory: &[u8], k: usize) -> u32
    requires { k + 1 ≤ length memory.now }
    ensures { result ≡ bytes.signed_byte_in memory.now k }
{
    i32::from(memory[k].cast_signed()).cast_unsigned()
}

#[inline(always)]
pub fn signed_half_in(memory: &[u8], k: usize) -> u32
    requires { k + 2 ≤ length memory.now }
    ensures { result ≡ bytes.signed_half_in memory.now k }
{
    i32::from((half_in(memory, k) as u16).cast_signed()).cast_unsigned()
}

#[inline(always)]
pub fn put_byte(word: u32, memory: &mut [u8], k: usize)
    requires { k + 1 ≤ length memory.old }
    ensures { memory.new ≡ bytes.with_byte word memory.old k }
{
    memory[k] = (word % 0x100) as u8;
}

#[inline(always)]
pub fn put_half(word: u32, memory: &mut [u8], k: usize)
    requires { k + 2 ≤ length memory.old }
    ensures { memory.new ≡ bytes.with_half word memory.old k }
{
    memory[k] = (word % 0x100) as u8;
    memory[k + 1] = (word / 0x100 % 0x100) as u8;
}

#[inline(always)]
pub fn put_word(word: u32, memory: &mut [u8], k: usize)
    requires { k + 4 ≤ length memory.old }
    ensures { memory.new ≡ bytes.with_word word memory.old k }
{
    memory[k] = (word % 0x100) as u8;
    memory[k + 1] = (word / 0x100 % 0x100) as u8;
    memory[k + 2] = (word / 0x1_0000 % 0x100) as u8;
    memory[k + 3] = (word / 0x100_0000 % 0x100) as u8;
}

/// Byte k of the text.
fn text_byte(text: &[u32], k: usize) -> u32
    requires { k < 4 * length text.now }
    ensures value { result ≡ reading.text_byte text.now k }
    ensures byte { result < 2 ^ 8 }
{
    (text[k / 4] >> (8 * (k % 4))) % 0x100
}

/// The word in four bytes of the text.
pub fn text_word(text: &[u32], k: usize) -> u32
    requires { k + 4 ≤ 4 * length text.now }
    ensures { result ≡ reading.text_word text.now k }
{
    text_byte(text, k)
        + text_byte(text, k + 1) * 0x100
        + text_byte(text, k + 2) * 0x1_0000
        + text_byte(text, k + 3) * 0x100_0000
}
