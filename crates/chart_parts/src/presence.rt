ghost use Rattle.std.specs.Prelude.{◌≡◌, ◌<◌, ◌^◌, All, IfOk};
ghost use Rattle.chart_parts.specs.PeriodWith.{presence_of};

use movement_log::Head;
use std::alloc::{AllocError, Global};
use track_types::BitList;

/// A bit for each of so many objects: whether one of the headers is that of a block of the object.
pub(crate) fn presence_of(
    alloc: Global,
    objects: u32,
    heads: &[Head],
) -> Result<BitList, AllocError>
    requires { All (λ head. head.index < objects) heads.now }
    ensures { IfOk result (λ bits. bits ≡ presence_of objects heads.now) }
{
    let mut bits = Vec::new(alloc);
    bits.resize(objects as usize, false)?;
    for head in heads {
        bits[head.index as usize] = true;
    }
    BitList::pack(alloc, bits.as_slice())
}
