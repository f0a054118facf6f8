ghost use Rattle.std.specs.Prelude.{◌≡◌, ◌*◌, ◌<◌, ◌≤◌, ◌^◌, IfOk, length};
ghost use Rattle.index_format.specs.Fields.{numbers_from_bits};

use std::alloc::{AllocError, Global};
use track_types::BitList;

/// So many numbers of `width` bits each, lowest first, which stand in the bits one after the other. Each
/// word is read once.
pub fn unpacked(
    alloc: Global,
    bits: &BitList,
    width: u32,
    count: u32,
) -> Result<Vec<u32>, AllocError>
    requires some { 1 ≤ width }
    requires narrow { width ≤ 32 }
    requires long { length bits.now ≡ width * count }
    ensures { IfOk result (λ numbers. numbers.items ≡ numbers_from_bits width count bits.now) }
{
    let mut numbers = Vec::with_capacity(alloc, count as usize)?;
    // The bits of the words read that are no number yet.
    let mut waiting = 0u128;
    let mut filled = 0;
    let mut words = 0;
    for _number in 0..count {
        if filled < width {
            waiting += u128::from(bits.word(words)) << filled;
            filled += 64;
            words += 1;
        }
        numbers.push((waiting % (1 << width)) as u32)?;
        waiting >>= width;
        filled -= width;
    }
    Ok(numbers)
}
