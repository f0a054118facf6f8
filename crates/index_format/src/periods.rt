ghost use Rattle.std.specs.Prelude.{◌≡◌, List, [], length};
ghost use Rattle.track_types.specs.declared.flaw.Section.TheVariants.{TreeLen};
ghost use Rattle.track_types.specs.declared.period_parts.PeriodParts as declared;
ghost use Rattle.index_format.specs.Answers.{Gives};
ghost use Rattle.index_format.specs.Fields.{items_at};
ghost use Rattle.index_format.specs.Reading.{tree_length_at, period_sections_at};

use crate::fields::short_of;
use crate::lists::shorts_of;
use crate::packed::{bits_of, ones_in};
use crate::place::Place;
use crate::room::with_room;
use std::alloc::Global;
use track_types::{FormatFault, Kind, MAX_TREE, PeriodList, PeriodParts, Section};

/// How many bits a period's tree has.
#[tactic(auto, unfolding(crate::specs::Reading::tree_length_at))]
fn tree_length_of(period: u32, bytes: &[u8]) -> Result<(u32, &[u8]), FormatFault>
    ensures { Gives (λ x. (x.0, x.1.now)) result (tree_length_at period bytes.now) }
{
    let place = Place::of(Section::TreeLen, period);
    let (len, rest) = short_of(bytes, place.flaw(0, Kind::Short))?;
    if u64::from(len) > MAX_TREE {
        return Err(FormatFault::Flaw(place.flaw(0, Kind::Field)));
    }
    Ok((len, rest))
}

/// The sections of one period.
#[tactic(auto, unfolding(crate::specs::Reading::period_sections_at))]
fn period_of(
    alloc: Global,
    objects: u32,
    period: u32,
    bytes: &[u8],
) -> Result<(PeriodParts, &[u8]), FormatFault>
    ensures exact { (seen : List declared.PeriodParts) → length seen ≡ period
        → Gives (λ x. (x.0, x.1.now)) result (period_sections_at objects seen bytes.now) }
{
    let (present, rest) = bits_of(alloc, Place::of(Section::Presence, period), objects, bytes)?;
    let count = ones_in(&present);
    let (offsets, rest) = shorts_of(alloc, Place::of(Section::Offsets, period), count, rest)?;
    let (len, rest) = tree_length_of(period, rest)?;
    let (tree, rest) = bits_of(alloc, Place::of(Section::Tree, period), len, rest)?;
    let (lasts, rest) = bits_of(alloc, Place::of(Section::Lasts, period), count, rest)?;
    let (perm, rest) = shorts_of(alloc, Place::of(Section::Perm, period), count, rest)?;
    let (lengths, rest) = shorts_of(alloc, Place::of(Section::Lengths, period), count, rest)?;
    Ok((
        PeriodParts {
            present,
            offsets,
            tree,
            lasts,
            perm,
            lengths,
        },
        rest,
    ))
}

/// So many periods, each of so many objects. Memory is taken only for those that the bytes hold: each
/// period takes a byte of presence bits and four of the tree's length at least.
pub fn periods_of(
    alloc: Global,
    objects: u32,
    count: u32,
    bytes: &[u8],
) -> Result<(PeriodList, &[u8]), FormatFault>
    ensures { Gives (λ x. (x.0, x.1.now)) result (items_at (period_sections_at objects) count [] bytes.now) }
{
    let mut periods = with_room(alloc, count, 5, bytes)?;
    let mut rest = bytes;
    for period in 0..count {
        let (parts, after) = period_of(alloc, objects, period, rest)?;
        periods.push(parts)?;
        rest = after;
    }
    Ok((PeriodList::new(periods), rest))
}
