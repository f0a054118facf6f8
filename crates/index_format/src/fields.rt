ghost use Rattle.std.specs.Prelude.{◌≡◌, length};
ghost use Rattle.std.specs.Int.{w32, w64, from_le_bytes};
ghost use Rattle.index_format.specs.Answers.{Gives};
ghost use Rattle.index_format.specs.Fields.{number_at};

use track_types::{Flaw, FormatFault};

/// The number of eight bytes, lowest first.
pub fn word_of(bytes: &[u8]) -> u64
    requires { length bytes.now ≡ 8 }
    ensures { result ≡ from_le_bytes w64 bytes.now }
{
    u64::from_le_bytes([
        bytes[0], bytes[1], bytes[2], bytes[3], bytes[4], bytes[5], bytes[6], bytes[7],
    ])
}

/// The number of four bytes at the front, and the bytes after it; `missing` where there are fewer.
#[tactic(auto, unfolding(crate::specs::Fields::number_at))]
pub fn short_of(bytes: &[u8], missing: Flaw) -> Result<(u32, &[u8]), FormatFault>
    ensures { Gives (λ x. (x.0, x.1.now)) result (number_at w32 missing bytes.now) }
{
    if bytes.len() < 4 {
        return Err(FormatFault::Flaw(missing));
    }
    let (front, rest) = bytes.split_at(4);
    Ok((
        u32::from_le_bytes([front[0], front[1], front[2], front[3]]),
        rest,
    ))
}

/// The number of eight bytes at the front, and the bytes after it; `missing` where there are fewer.
#[tactic(auto, unfolding(crate::specs::Fields::number_at))]
pub fn long_of(bytes: &[u8], missing: Flaw) -> Result<(u64, &[u8]), FormatFault>
    ensures { Gives (λ x. (x.0, x.1.now)) result (number_at w64 missing bytes.now) }
{
    if bytes.len() < 8 {
        return Err(FormatFault::Flaw(missing));
    }
    let (front, rest) = bytes.split_at(8);
    Ok((word_of(front), rest))
}
