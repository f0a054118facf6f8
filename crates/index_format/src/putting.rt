ghost use Rattle.std.specs.Prelude.{◌≡◌, ◌++◌, OnOk};
ghost use Rattle.std.specs.List.{flat_map};
ghost use Rattle.index_format.specs.Spelling.{short_bytes, long_bytes, rule_bytes, bit_bytes};

use crate::lengths::bits_len;
use track_types::{BitList, Memory};

/// Appends the number as four bytes, lowest first.
#[tactic(auto, unfolding(crate::specs::Spelling::short_bytes))]
pub fn put_short(out: &mut Vec<u8>, number: u32) -> Result<(), Memory>
    ensures { OnOk result (out.new.items ≡ out.old.items ++ short_bytes number) }
{
    out.extend_from_slice(&number.to_le_bytes())?;
    Ok(())
}

/// Appends the number as eight bytes, lowest first.
#[tactic(auto, unfolding(crate::specs::Spelling::long_bytes))]
pub fn put_long(out: &mut Vec<u8>, number: u64) -> Result<(), Memory>
    ensures { OnOk result (out.new.items ≡ out.old.items ++ long_bytes number) }
{
    out.extend_from_slice(&number.to_le_bytes())?;
    Ok(())
}

/// Appends numbers of four bytes.
pub fn put_shorts(out: &mut Vec<u8>, numbers: &[u32]) -> Result<(), Memory>
    ensures { OnOk result (out.new.items ≡ out.old.items ++ flat_map short_bytes numbers.now) }
{
    for &number in numbers {
        put_short(out, number)?;
    }
    Ok(())
}

/// Appends numbers of eight bytes.
pub fn put_longs(out: &mut Vec<u8>, numbers: &[u64]) -> Result<(), Memory>
    ensures { OnOk result (out.new.items ≡ out.old.items ++ flat_map long_bytes numbers.now) }
{
    for &number in numbers {
        put_long(out, number)?;
    }
    Ok(())
}

/// Appends rules: the two numbers of each.
#[tactic(auto, unfolding(crate::specs::Spelling::rule_bytes))]
pub fn put_rules(out: &mut Vec<u8>, rules: &[(u32, u32)]) -> Result<(), Memory>
    ensures { OnOk result (out.new.items ≡ out.old.items ++ flat_map rule_bytes rules.now) }
{
    for &(left, right) in rules {
        put_short(out, left)?;
        put_short(out, right)?;
    }
    Ok(())
}

/// Appends bits by words. Each word takes eight bytes; the last one takes only those that hold a bit.
pub fn put_bits(out: &mut Vec<u8>, bits: &BitList) -> Result<(), Memory>
    ensures { OnOk result (out.new.items ≡ out.old.items ++ bit_bytes bits.now) }
{
    let len = bits_len(bits);
    for i in 0..bits.len().div_ceil(64) {
        let word = bits.word(i).to_le_bytes();
        let left = len - 8 * i as usize;
        out.extend_from_slice(&word[..left.min(8)])?;
    }
    Ok(())
}
