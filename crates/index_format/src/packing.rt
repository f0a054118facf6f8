ghost use Rattle.std.specs.Prelude.{◌≡◌, ◌++◌, ◌^◌, ◌<◌, ◌≤◌, Bool, List, [], ℕ, All, IfOk, OnOk};
ghost use Rattle.packed_bits.specs.Words.{low_bits};
ghost use Rattle.index_format.specs.Packing.{IsPacking};
ghost use Rattle.index_format.specs.Spelling.{bit_bytes, bits_with};

use track_types::Memory;

/// A word that is filled in part: its bits as a number, lowest first.
#[derive(Clone, Copy)]
struct PartialWord {
    bits: u64,
    len: u32,
    ghost low: { len < 64 },
    ghost small: { bits < 2 ^ len },
}

impl PartialWord {
    /// No bits.
    fn none() -> PartialWord
        ensures { (before : List ℕ) → IsPacking before [] before result.bits result.len }
    {
        PartialWord { bits: 0, len: 0 }
    }

    /// These bits with a number of `width` bits after them. A word that is full is appended.
    fn then(self, out: &mut Vec<u8>, width: u32, number: u32) -> Result<PartialWord, Memory>
        requires narrow { width ≤ 32 }
        requires small { number < 2 ^ width }
        ensures { IfOk result (λ next. (before : List ℕ) (bits : List Bool)
            → IsPacking before bits out.old.items self.bits self.len
            → IsPacking before (bits ++ low_bits width number) out.new.items next.bits next.len) }
    {
        let joined = (u128::from(number) << self.len) + u128::from(self.bits);
        let len = self.len + width;
        if len < 64 {
            return Ok(PartialWord {
                bits: joined as u64,
                len,
            });
        }
        let word = (joined % (1 << 64)) as u64;
        out.extend_from_slice(&word.to_le_bytes())?;
        Ok(PartialWord {
            bits: (joined >> 64) as u64,
            len: len - 64,
        })
    }

    /// Appends the bytes that these bits fill; the spare bits of the last byte are 0.
    fn end(self, out: &mut Vec<u8>) -> Result<(), Memory>
        ensures { OnOk result ((before : List ℕ) (bits : List Bool)
            → IsPacking before bits out.old.items self.bits self.len
            → out.new.items ≡ before ++ bit_bytes bits) }
    {
        let word = self.bits.to_le_bytes();
        out.extend_from_slice(&word[..self.len.div_ceil(8) as usize])?;
        Ok(())
    }
}

/// Appends numbers of `width` bits each, lowest first, one after the other, word by word.
pub fn put_packed(out: &mut Vec<u8>, width: u32, numbers: &[u32]) -> Result<(), Memory>
    requires narrow { width ≤ 32 }
    requires small { All (λ number. number < 2 ^ width) numbers.now }
    ensures { OnOk result (out.new.items ≡ out.old.items ++ bit_bytes (bits_with width numbers.now)) }
{
    let mut word = PartialWord::none();
    for &number in numbers {
        word = word.then(out, width, number)?;
    }
    word.end(out)
}
