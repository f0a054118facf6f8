ghost use Rattle.std.specs.Prelude.{◌≡◌};
ghost use Rattle.index_format.specs.Answers.{Gives};
ghost use Rattle.index_format.specs.OutlineFile.{ended_bits};

use crate::place::Place;
use bit_stream::BitReader;
use track_types::{FormatFault, Kind, Section};

/// Whether the rest of the byte in which the next bit stands is 0, and no byte follows.
pub fn ended(reader: &BitReader<'_>) -> Result<(), FormatFault>
    ensures { Gives (λ done. done) result (ended_bits reader.now tt) }
{
    let place = Place::of(Section::End, 0);
    if reader.spare() {
        return Err(FormatFault::Flaw(place.flaw(0, Kind::Pad)));
    }
    if reader.bytes_left() > 0 {
        return Err(FormatFault::Flaw(place.flaw(0, Kind::Extra)));
    }
    Ok(())
}
