ghost use Rattle.std.specs.Prelude.{◌≡◌, ◌≤◌, true, false, IfOk, MatchOption, None, Some};
ghost use Rattle.track_types.specs.declared.limit.TheConstants.{MAX_HEIGHT};
ghost use Rattle.index_format.specs.Answers.{GivesElement};
ghost use Rattle.rule_store.specs.Cells.{moved};
ghost use Rattle.spiral_code.specs.Spiral.{move_of};
ghost use Rattle.index_format.specs.OutlineBlocks.{anchor_in, is_in_grid};
ghost use Rattle.index_format.specs.BlockSteps.{IsKept};

use crate::outline::grid::{is_in_grid, moved};
use crate::outline::told::{told, wide};
use crate::place::Place;
use bit_stream::BitReader;
use spiral_code::decode_move;
use track_types::{Cell, FormatFault, Frame, Kind, Section};

/// How many codes movements have that are no longer than a grid may be wide.
const CODES: u64 = 33_554_431 * 33_554_431;

/// The cell of the anchor of a block in a period of an object, whose last cell is known if a block of it came before.
pub fn anchor_in(
    frame: &Frame,
    period: u32,
    index: u32,
    last: Option<Cell>,
    reader: &mut BitReader<'_>,
) -> Result<Cell, FormatFault>
    requires height { frame.now.height ≤ MAX_HEIGHT }
    requires last { IsKept frame.now.height last }
    ensures exact { GivesElement (λ cell. cell) result reader.new (anchor_in frame.now period index last reader.old) }
    ensures within { IfOk result (λ cell. is_in_grid frame.now.height cell ≡ true) }
{
    match last {
        None => first_cell(frame, period, index, reader),
        Some(last) => further_cell(frame, period, index, last, reader),
    }
}

// The cell that two numbers of `height` bits give.
fn first_cell(
    frame: &Frame,
    period: u32,
    index: u32,
    reader: &mut BitReader<'_>,
) -> Result<Cell, FormatFault>
    requires { frame.now.height ≤ MAX_HEIGHT }
    ensures exact { GivesElement (λ cell. cell) result reader.new (anchor_in frame.now period index None reader.old) }
    ensures within { IfOk result (λ cell. is_in_grid frame.now.height cell ≡ true) }
{
    let place = Place::of(Section::Anchors, period);
    let x = wide(reader, place, index as usize, frame.height)?;
    let y = wide(reader, place, index as usize, frame.height)?;
    Ok(Cell {
        x: x as i64,
        y: y as i64,
    })
}

// Reads the code of a movement, and gives the cell to which it leads from the last one.
fn further_cell(
    frame: &Frame,
    period: u32,
    index: u32,
    last: Cell,
    reader: &mut BitReader<'_>,
) -> Result<Cell, FormatFault>
    requires height { frame.now.height ≤ MAX_HEIGHT }
    requires last { is_in_grid frame.now.height last ≡ true }
    ensures exact { GivesElement (λ cell. cell) result reader.new (anchor_in frame.now period index (Some last) reader.old) }
    ensures within { IfOk result (λ cell. is_in_grid frame.now.height cell ≡ true) }
{
    let place = Place::of(Section::Anchors, period);
    let code = told(reader, place, index as usize)?;
    match cell_behind(frame.height, last, code) {
        Some(cell) => Ok(cell),
        None => Err(FormatFault::Flaw(place.flaw(index as usize, Kind::OffGrid))),
    }
}

// The cell to which the movement of a code leads, if it is in the grid.
fn cell_behind(height: u32, last: Cell, code: u64) -> Option<Cell>
    requires height { height ≤ MAX_HEIGHT }
    requires last { is_in_grid height last ≡ true }
    ensures { MatchOption result (is_in_grid height (moved last (move_of code)) ≡ false)
        (λ cell. (cell ≡ moved last (move_of code)) × (is_in_grid height (moved last (move_of code)) ≡ true)) }
{
    if code >= CODES {
        return None;
    }
    let (dx, dy) = decode_move(code);
    let cell = moved(height, last, dx, dy);
    if is_in_grid(height, cell) {
        Some(cell)
    } else {
        None
    }
}
