ghost use Rattle.std.specs.Prelude.{◌≡◌, ◌+◌, ◌*◌, ◌^◌, ◌<◌, ◌≤◌, []};
ghost use Rattle.spiral_code.specs.Spiral.{square};
ghost use Rattle.rule_store.specs.Flaws.{reach_limit};
ghost use Rattle.track_types.specs.declared.limit.TheConstants.{MAX_HEIGHT};
ghost use Rattle.index_format.specs.Answers.{GivesElement};
ghost use Rattle.index_format.specs.Fields.{items_at};
ghost use Rattle.index_format.specs.OutlineLists.{object_in, value_in};

use crate::outline::told::told;
use crate::place::Place;
use bit_stream::BitReader;
use std::alloc::Global;
use track_types::{FormatFault, Kind, List32, List64, Section};

/// So many objects, ascending. Memory is taken as they are read.
pub fn objects_in(
    alloc: Global,
    count: u32,
    reader: &mut BitReader<'_>,
) -> Result<List32, FormatFault>
    ensures { GivesElement (λ list. list) result reader.new (items_at object_in count [] reader.old) }
{
    let place = Place::of(Section::Objects, 0);
    let mut objects = Vec::new(alloc);
    let mut least = 0;
    for index in 0..count as usize {
        let object = least + told(reader, place, index)?;
        if object > u64::from(u32::MAX) {
            return Err(FormatFault::Flaw(place.flaw(index, Kind::Field)));
        }
        objects.push(object as u32)?;
        least = object + 1;
    }
    Ok(List32::new(objects))
}

/// So many values of the alphabet, ascending. Each leads from some cell of a grid of this height to a cell of the grid.
/// Memory is taken as they are read.
pub fn values_in(
    alloc: Global,
    height: u32,
    count: u32,
    reader: &mut BitReader<'_>,
) -> Result<List64, FormatFault>
    requires { height ≤ MAX_HEIGHT }
    ensures { GivesElement (λ list. list) result reader.new (items_at (value_in height) count [] reader.old) }
{
    let place = Place::of(Section::Alphabet, 0);
    let greatest = greatest_value(height);
    let mut values = Vec::new(alloc);
    let mut least = 0;
    for index in 0..count as usize {
        let value = least + told(reader, place, index)?;
        if value > greatest {
            return Err(FormatFault::Flaw(place.flaw(index, Kind::Code)));
        }
        values.push(value)?;
        least = value + 1;
    }
    Ok(List64::new(values))
}

// The greatest value of a movement that leads from some cell of a grid of this height to another.
fn greatest_value(height: u32) -> u64
    requires { height ≤ MAX_HEIGHT }
    ensures exact { result ≡ square (2 * reach_limit height + 1) }
    ensures within { result < 2 ^ 50 }
{
    // The codes up to ring r are those below the square of 2r + 1.
    let side = (2u64 << height) - 1;
    side * side
}
