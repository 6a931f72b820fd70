//! Addresses of instructions, kept as an index into the text so that fetching one needs no test of its
//! alignment.
ghost use Rattle.std.specs.Prelude.{◌≡◌, ◌+◌, ◌-◌, ◌*◌, ◌/◌, ◌%◌, ◌^◌, ◌<◌, ◌≤◌, ◌==◌, if◌then◌else◌};
ghost use Rattle.rv_machine.specs.State.{following};
ghost use Rattle.rv_machine.specs.Arithmetic.{sum};
ghost use Rattle.rv_machine.specs.Pc.{index_of};

use std::marker::Model;

/// An address that is a multiple of 4, kept as how many words it is past the start of the text.
///
/// Contracts see the address.
#[derive(Clone, Copy, Debug)]
pub struct Pc {
    index: u32,
}

impl Model for Pc {
    ghost use Rattle.std.specs.Prelude.{ℕ, ◌^◌, ◌<◌};

    ghost Value = { ℕ };

    ghost use Rattle.rv_machine.specs.Pc.{address_of, index_of};

    ghost view = { λ p. address_of p.index };

    ghost invariant = { λ p. p.index < 2 ^ 30 };

    ghost inverse = { λ address. record { index = index_of address } };
}

impl Pc {
    /// The address, if it is a multiple of 4.
    #[inline(always)]
    pub fn at(address: u32) -> Option<Pc>
        ensures { result ≡ (if address % 4 == 0 then Some address else None) }
    {
        if address % 4 != 0 {
            return None;
        }
        Some(Pc {
            index: address.wrapping_sub(0x10000) / 4,
        })
    }

    /// The address.
    #[inline(always)]
    pub fn address(self) -> u32
        ensures { result ≡ self }
    {
        (self.index * 4).wrapping_add(0x10000)
    }

    /// How many words the address is past the start of the text, modulo 2^30.
    #[inline(always)]
    pub fn index(self) -> usize
        ensures value { result ≡ index_of self }
        ensures aligned { self % 4 ≡ 0 }
        ensures word { self < 2 ^ 32 }
    {
        self.index as usize
    }

    /// The next address.
    #[inline(always)]
    pub fn next(self) -> Pc
        requires { index_of self < 2 ^ 28 }
        ensures { result ≡ following self }
    {
        Pc {
            index: self.index + 1,
        }
    }

    /// The next address, from anywhere.
    pub fn following(self) -> Pc
        ensures { result ≡ following self }
    {
        Pc {
            index: (self.index + 1) % 0x4000_0000,
        }
    }

    /// The address at an offset, if it is a multiple of 4.
    #[inline(always)]
    pub fn at_offset(self, offset: u32) -> Option<Pc>
        ensures { result ≡ (if sum self offset % 4 == 0 then Some (sum self offset) else None) }
    {
        let bytes = (self.index * 4).wrapping_add(offset);
        if bytes % 4 != 0 {
            return None;
        }
        Some(Pc { index: bytes / 4 })
    }
}
