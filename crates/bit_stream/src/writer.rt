ghost use Rattle.std.specs.Prelude.{◌≡◌, ◌++◌, ◌+◌, ◌^◌, ◌<◌, ◌≤◌, [], IfOk, OnOk};
ghost use Rattle.packed_bits.specs.Words.{low_bits};
ghost use Rattle.bit_stream.specs.Bytes.{bits_in, bit_bytes, IsWaiting};
ghost use Rattle.bit_stream.specs.Numbers.{lg, number_bits};

use std::alloc::{AllocError, Global};
use std::marker::Model;

/// Bits on their way into bytes. Contracts see all that were put.
#[derive(Debug, Drop)]
pub struct BitWriter {
    bytes: Vec<u8>,
    // The bits that do not fill a word yet, as a number, lowest first.
    waiting: u64,
    // How many they are.
    filled: u32,
}

impl Model for BitWriter {
    ghost use Rattle.std.specs.Prelude.{Bool, List, ◌++◌};
    ghost use Rattle.packed_bits.specs.Words.{low_bits};
    ghost use Rattle.bit_stream.specs.Bytes.{bits_in, IsWaiting};

    ghost Value = { List Bool };

    ghost view = { λ writer. bits_in writer.bytes.items ++ low_bits writer.filled writer.waiting };

    ghost invariant = { λ writer. IsWaiting writer.waiting writer.filled };
}

impl BitWriter {
    /// No bits. It takes no memory.
    pub fn new(alloc: Global) -> BitWriter
        ensures { result ≡ [] }
    {
        BitWriter::after(Vec::new(alloc))
    }

    /// The bits of these bytes.
    pub fn after(bytes: Vec<u8>) -> BitWriter
        ensures { result ≡ bits_in bytes.items }
    {
        BitWriter {
            bytes,
            waiting: 0,
            filled: 0,
        }
    }

    /// Puts the `width` lowest digits of a number, the lowest first.
    pub fn put_low(&mut self, value: u64, width: u32) -> Result<(), AllocError>
        requires { width ≤ 56 }
        ensures ok { OnOk result (self.new ≡ self.old ++ low_bits width value) }
    {
        let joined = joined(self.waiting, self.filled, value, width);
        let filled = self.filled + width;
        if filled < 64 {
            self.waiting = joined as u64;
            self.filled = filled;
            return Ok(());
        }
        let word = (joined % (1 << 64)) as u64;
        self.bytes.extend_from_slice(&word.to_le_bytes())?;
        self.waiting = (joined >> 64) as u64;
        self.filled = filled - 64;
        Ok(())
    }

    /// Puts a number, at most `2^56 - 2`, so that it says itself how long it is. A smaller one takes fewer bits.
    pub fn put_number(&mut self, value: u64) -> Result<(), AllocError>
        requires { value + 2 ≤ 2 ^ 56 }
        ensures ok { OnOk result (self.new ≡ self.old ++ number_bits value) }
    {
        let number = value + 1;
        let digits = digits_of(number);
        let zeros = digits_of(digits.into()) - 1;
        self.put_low(1 << zeros, zeros + 1)?;
        self.put_low(digits.into(), zeros)?;
        self.put_low(number, digits - 1)?;
        Ok(())
    }

    /// The bytes that the bits fill; the spare bits of the last one are 0.
    pub fn into_bytes(self) -> Result<Vec<u8>, AllocError>
        ensures ok { IfOk result (λ bytes. bytes.items ≡ bit_bytes self) }
    {
        ended(self.bytes, self.waiting, self.filled)
    }
}

// How many binary digits a number from 1 on has.
fn digits_of(number: u64) -> u32
    requires { 1 ≤ number }
    ensures exact { result ≡ lg number }
    ensures within { 1 ≤ result }
{
    64 - number.leading_zeros()
}

// The `width` lowest digits of a value above bits that wait.
fn joined(waiting: u64, filled: u32, value: u64, width: u32) -> u128
    requires waits { IsWaiting waiting filled }
    requires narrow { width ≤ 56 }
    ensures exact { low_bits (filled + width) result ≡ low_bits filled waiting ++ low_bits width value }
    ensures small { result < 2 ^ (filled + width) }
{
    let low = value % (1 << width);
    (u128::from(low) << filled) + u128::from(waiting)
}

// These bytes with those of the bits that wait.
fn ended(mut bytes: Vec<u8>, waiting: u64, filled: u32) -> Result<Vec<u8>, AllocError>
    requires { IsWaiting waiting filled }
    ensures { IfOk result (λ all. all.items ≡ bit_bytes (bits_in bytes.items ++ low_bits filled waiting)) }
{
    let word = waiting.to_le_bytes();
    bytes.extend_from_slice(&word[..filled.div_ceil(8) as usize])?;
    Ok(bytes)
}
