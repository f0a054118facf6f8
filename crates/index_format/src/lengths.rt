ghost use Rattle.std.specs.Prelude.{◌≡◌, ◌≤◌, ◌<◌, ◌^◌, length};
ghost use Rattle.track_types.specs.PartsForm.{IsShapedPeriod};
ghost use Rattle.index_format.specs.Stored.{AreOldParts};
ghost use Rattle.index_format.specs.Spelling.{bytes_for, bytes_of_parts, period_bytes};

use crate::log::log_len;
use track_types::{BitList, Parts, PeriodParts};

/// How many bytes the header of a file that holds parts has.
const HEADER_LEN: usize = 76;

/// How many bytes the bits take. There are fewer than 2^32 bits.
pub fn bits_len(bits: &BitList) -> usize
    ensures exact { result ≡ bytes_for (length bits.now) }
    ensures few { length bits.now < 2 ^ 32 }
    ensures within { result ≤ 2 ^ 29 }
{
    bits.len().div_ceil(8) as usize
}

/// How many bytes a period of shaped parts takes.
fn period_len(period: &PeriodParts) -> usize
    requires { IsShapedPeriod (length period.now.present) period.now }
    ensures exact { result ≡ length (period_bytes period.now) }
    ensures within { result ≤ 2 ^ 36 }
{
    let bits = bits_len(&period.present) + bits_len(&period.tree) + bits_len(&period.lasts);
    let offsets = period.offsets.as_slice().len();
    let perm = period.perm.as_slice().len();
    let lengths = period.lengths.as_slice().len();
    bits + 4 * (offsets + 1 + perm + lengths)
}

/// How many bytes an index file has that holds these parts, counted in one pass over the periods.
pub fn parts_len(parts: &Parts) -> usize
    requires { AreOldParts parts.now }
    ensures { result ≡ length (bytes_of_parts parts.now) }
{
    let mut periods = 0;
    for period in parts.periods.as_slice() {
        periods += period_len(period);
    }
    let objects = parts.objects.as_slice().len();
    let longs = parts.alphabet.as_slice().len() + parts.rules.as_slice().len();
    HEADER_LEN + 4 * objects + 8 * longs + periods + log_len(parts)
}
