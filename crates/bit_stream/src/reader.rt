ghost use Rattle.std.specs.Prelude.{◌≡◌, ◌+◌, ◌*◌, ◌/◌, ◌%◌, ◌^◌, ◌<◌, ◌≤◌, ℕ, nat_lt, nat_le, length, take, drop, IfOk, true};
ghost use Rattle.packed_bits.specs.Bits.{ones_of, window_of};
ghost use Rattle.bit_stream.specs.Bytes.{bits_in, IsInside};
ghost use Rattle.bit_stream.specs.Numbers.{low_in, zeros_in, number_in};
ghost use Rattle.bit_stream.specs.Answers.{Takes};

use crate::fault::BitFault;
use crate::word::first_word;
use std::marker::Model;

/// The most binary digits that a number has, counting from 1.
const MAX_DIGITS: u32 = 56;

/// The most bits 0 that a number begins with.
const MAX_ZEROS: u32 = 5;

/// The most bits that are passed over at once.
const MAX_WIDTH: u32 = 56;

/// The bits of bytes, read from the front. Contracts see those that are left.
///
/// A read looks at eight bytes at once. Where it fails, nothing is said of the bits that are left.
#[derive(Drop)]
pub struct BitReader<'a> {
    // The bytes, from that of the next bit on.
    bytes: &'a [u8],
    // How many bits of the first byte were read.
    used: u32,
}

impl<'a> Model for BitReader<'a> {
    ghost use Rattle.std.specs.Prelude.{Bool, List, drop};
    ghost use Rattle.bit_stream.specs.Bytes.{bits_in, IsInside};

    ghost Value = { List Bool };

    ghost view = { λ reader. drop reader.used (bits_in reader.bytes.now) };

    ghost invariant = { λ reader. IsInside reader.used reader.bytes.now };
}

impl<'a> BitReader<'a> {
    /// All bits of the bytes.
    pub fn new(bytes: &'a [u8]) -> BitReader<'a>
        ensures { result ≡ bits_in bytes.now }
    {
        BitReader { bytes, used: 0 }
    }

    /// The number that the next `width` bits spell, lowest first; `Short` where there are fewer.
    pub fn low(&mut self, width: u32) -> Result<u64, BitFault>
        requires { width ≤ 56 }
        ensures exact { Takes result self.new (low_in width self.old) }
        ensures within { IfOk result (λ value. value < 2 ^ width) }
    {
        if !self.has(width) {
            return Err(BitFault::Short);
        }
        let value = self.window() % (1 << width);
        self.skip(width);
        Ok(value)
    }

    /// The number that says itself how long it is, at most `2^56 - 2`. It is `Large` where more than five
    /// bits 0 come first or it has too many digits, and else `Short` where the bits end within it.
    // A caller's own error is made in its place, and not one that is handed on.
    #[inline(always)]
    pub fn number(&mut self) -> Result<u64, BitFault>
        ensures exact { Takes result self.new (number_in self.old) }
        ensures within { IfOk result (λ value. value + 2 ≤ 2 ^ 56) }
    {
        if !self.is_long() {
            return self.long_number();
        }
        let word = self.window();
        let zeros = word.trailing_zeros();
        if zeros > MAX_ZEROS {
            return self.long_number();
        }
        let digits = (1 << zeros) + ((word >> (zeros + 1)) % (1 << zeros)) as u32;
        let length = 2 * zeros + digits;
        if length > MAX_WIDTH {
            return self.long_number();
        }
        self.skip(length);
        let top = 1 << (digits - 1);
        Ok(top + (word >> (2 * zeros + 1)) % top - 1)
    }

    /// Whether one of the bits that are left of a byte is 1, where the last read ended within a byte.
    pub fn spare(&self) -> bool
        ensures { result ≡ nat_lt 0 (ones_of (take (length self.now % 8) self.now)) }
    {
        has_spare(self.bytes, self.used)
    }

    /// How many whole bytes are left.
    pub fn bytes_left(&self) -> usize
        ensures { result ≡ length self.now / 8 }
    {
        if self.used > 0 {
            self.bytes.len() - 1
        } else {
            self.bytes.len()
        }
    }

    // The same number, a piece at a time, wherever it may end.
    #[inline(never)]
    fn long_number(&mut self) -> Result<u64, BitFault>
        ensures exact { Takes result self.new (number_in self.old) }
        ensures within { IfOk result (λ value. value + 2 ≤ 2 ^ 56) }
    {
        let zeros = self.zeros()?;
        let digits = (1 << zeros) + self.low(zeros)? as u32;
        if digits > MAX_DIGITS {
            return Err(BitFault::Large);
        }
        Ok((1 << (digits - 1)) + self.low(digits - 1)? - 1)
    }

    // The bits 0 before the next bit 1, and that one.
    fn zeros(&mut self) -> Result<u32, BitFault>
        ensures exact { Takes result self.new (zeros_in 5 self.old) }
        ensures within { IfOk result (λ zeros. zeros ≤ 5) }
    {
        let zeros = self.window().trailing_zeros();
        if zeros > MAX_ZEROS {
            return Err(if self.has(MAX_ZEROS + 1) {
                BitFault::Large
            } else {
                BitFault::Short
            });
        }
        self.skip(zeros + 1);
        Ok(zeros)
    }

    // Whether a whole word of bytes is left, which has any bits that are read at once.
    fn is_long(&self) -> bool
        ensures { result ≡ true → 56 ≤ length self.now }
    {
        self.bytes.len() >= 8
    }

    // Whether so many bits are left.
    fn has(&self, count: u32) -> bool
        requires { count ≤ 56 }
        ensures { result ≡ nat_le count (length self.now) }
    {
        self.is_long() || self.bytes.len() >= (self.used + count).div_ceil(8) as usize
    }

    // The next bits as a number, lowest first: at least 57, or those that are left.
    fn window(&self) -> u64
        ensures { (n : ℕ) → n ≤ 57 → result % 2 ^ n ≡ window_of self.now 0 n }
    {
        first_word(self.bytes) >> self.used
    }

    // Passes over so many bits.
    fn skip(&mut self, count: u32)
        requires few { count ≤ 56 }
        requires there { count ≤ length self.old }
        ensures { self.new ≡ drop count self.old }
    {
        let end = self.used + count;
        let (_, rest) = self.bytes.split_at(end as usize / 8);
        self.bytes = rest;
        self.used = end % 8;
    }
}

// Whether one of the bits of the first byte is 1 that were not used, where some were used.
fn has_spare(bytes: &[u8], used: u32) -> bool
    requires { IsInside used bytes.now }
    ensures { result ≡ nat_lt 0 (ones_of (take (length (drop used (bits_in bytes.now)) % 8) (drop used (bits_in bytes.now)))) }
{
    used > 0 && bytes[0] >> used > 0
}
