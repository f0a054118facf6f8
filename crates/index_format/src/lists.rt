ghost use Rattle.std.specs.Prelude.{◌≡◌, [], length};
ghost use Rattle.std.specs.Int.{w32, w64};
ghost use Rattle.track_types.specs.declared.flaw.Section.TheVariants.{Objects, Alphabet};
ghost use Rattle.index_format.specs.Answers.{Gives};
ghost use Rattle.index_format.specs.Fields.{items_at, short_at, rising_at, rule_at};

use crate::fields::{long_of, short_of};
use crate::place::Place;
use crate::room::with_room;
use std::alloc::Global;
use track_types::{FormatFault, Kind, List32, List64, PairList, Section};

/// So many numbers of four bytes. Memory is taken only for those that the bytes hold.
#[tactic(auto, unfolding(crate::specs::Fields::short_at))]
pub fn shorts_of(
    alloc: Global,
    place: Place,
    count: u32,
    bytes: &[u8],
) -> Result<(List32, &[u8]), FormatFault>
    ensures { Gives (λ x. (x.0, x.1.now)) result (items_at (short_at place.section place.period) count [] bytes.now) }
{
    let mut values = with_room(alloc, count, 4, bytes)?;
    let mut rest = bytes;
    for index in 0..count as usize {
        let (value, after) = short_of(rest, place.flaw(index, Kind::Short))?;
        values.push(value)?;
        rest = after;
    }
    Ok((List32::new(values), rest))
}

/// So many objects, each greater than the one before.
#[tactic(auto, unfolding(crate::specs::Fields::rising_at))]
pub fn objects_of(alloc: Global, count: u32, bytes: &[u8]) -> Result<(List32, &[u8]), FormatFault>
    ensures { Gives (λ x. (x.0, x.1.now)) result (items_at (rising_at w32 Objects) count [] bytes.now) }
{
    let place = Place::of(Section::Objects, 0);
    let mut values = with_room(alloc, count, 4, bytes)?;
    let mut rest = bytes;
    for index in 0..count as usize {
        let (value, after) = short_of(rest, place.flaw(index, Kind::Short))?;
        if index > 0 && value <= values[index - 1] {
            return Err(FormatFault::Flaw(place.flaw(index, Kind::Order)));
        }
        values.push(value)?;
        rest = after;
    }
    Ok((List32::new(values), rest))
}

/// So many values of the alphabet, each greater than the one before.
#[tactic(auto, unfolding(crate::specs::Fields::rising_at))]
pub fn alphabet_of(alloc: Global, count: u32, bytes: &[u8]) -> Result<(List64, &[u8]), FormatFault>
    ensures { Gives (λ x. (x.0, x.1.now)) result (items_at (rising_at w64 Alphabet) count [] bytes.now) }
{
    let place = Place::of(Section::Alphabet, 0);
    let mut values = with_room(alloc, count, 8, bytes)?;
    let mut rest = bytes;
    for index in 0..count as usize {
        let (value, after) = long_of(rest, place.flaw(index, Kind::Short))?;
        if index > 0 && values[index - 1] >= value {
            return Err(FormatFault::Flaw(place.flaw(index, Kind::Order)));
        }
        values.push(value)?;
        rest = after;
    }
    Ok((List64::new(values), rest))
}

/// So many rules. A rule that is cut off in its second number is missing as a whole.
#[tactic(auto, unfolding(crate::specs::Fields::rule_at))]
pub fn rules_of(alloc: Global, count: u32, bytes: &[u8]) -> Result<(PairList, &[u8]), FormatFault>
    ensures { Gives (λ x. (x.0, x.1.now)) result (items_at rule_at count [] bytes.now) }
{
    let place = Place::of(Section::Rules, 0);
    let mut rules = with_room(alloc, count, 8, bytes)?;
    let mut rest = bytes;
    for index in 0..count as usize {
        let missing = place.flaw(index, Kind::Short);
        let (left, after) = short_of(rest, missing)?;
        let (right, after) = short_of(after, missing)?;
        rules.push((left, right))?;
        rest = after;
    }
    Ok((PairList::new(rules), rest))
}
