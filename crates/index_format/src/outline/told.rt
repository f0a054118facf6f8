ghost use Rattle.std.specs.Prelude.{◌≡◌, ◌+◌, ◌^◌, ◌<◌, ◌≤◌, IfOk};
ghost use Rattle.index_format.specs.Answers.{GivesElement};
ghost use Rattle.index_format.specs.Elements.{kind_of_fault, told_at, wide_at};
ghost use Rattle.index_format.specs.Fields.{flaw_at};

use crate::place::Place;
use bit_stream::{BitFault, BitReader};
use track_types::{FormatFault, Kind};

/// A number that says itself how long it is, as an element of a section.
// A flaw is made at a caller's own way out: there are many numbers, and hardly a flaw.
#[inline(always)]
#[tactic(auto, unfolding(crate::specs::Elements::told_at))]
pub fn told(reader: &mut BitReader<'_>, place: Place, index: usize) -> Result<u64, FormatFault>
    ensures exact { GivesElement (λ number. number) result reader.new
        (told_at (flaw_at place.section place.period index) reader.old) }
    ensures within { IfOk result (λ number. number + 2 ≤ 2 ^ 56) }
{
    match reader.number() {
        Ok(number) => Ok(number),
        Err(fault) => Err(FormatFault::Flaw(place.flaw(index, kind_of(fault)))),
    }
}

/// A number of so many bits, as an element of a section.
#[inline(always)]
#[tactic(auto, unfolding(crate::specs::Elements::wide_at))]
pub fn wide(
    reader: &mut BitReader<'_>,
    place: Place,
    index: usize,
    width: u32,
) -> Result<u64, FormatFault>
    requires { width ≤ 56 }
    ensures exact { GivesElement (λ number. number) result reader.new
        (wide_at (flaw_at place.section place.period index) width reader.old) }
    ensures within { IfOk result (λ number. number < 2 ^ width) }
{
    match reader.low(width) {
        Ok(number) => Ok(number),
        Err(fault) => Err(FormatFault::Flaw(place.flaw(index, kind_of(fault)))),
    }
}

// The kind of flaw that a fault of bits is in an index.
fn kind_of(fault: BitFault) -> Kind
    ensures { result ≡ kind_of_fault fault }
{
    match fault {
        BitFault::Short => Kind::Short,
        BitFault::Large => Kind::Large,
    }
}
