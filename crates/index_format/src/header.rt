ghost use Rattle.std.specs.Prelude.{◌≡◌, ◌≤◌, ◌+◌, ◌^◌, IfOk, pos};
ghost use Rattle.std.specs.Int.{w32, w64};
ghost use Rattle.track_types.specs.declared.limit.TheConstants.{MAX_RESOLUTION, MAX_SYMBOLS, MAX_VERSION};
ghost use Rattle.index_format.specs.Answers.{Gives};
ghost use Rattle.index_format.specs.Headers.{IsHeader};
ghost use Rattle.index_format.specs.Spelling.{magic};
ghost use Rattle.index_format.specs.Reading.{header_flaw, is_in_range, is_span, is_first, is_near, version_at, field_at, signed_at, symbols_at, sizes_at, long_place, fields_at, header_at};

use crate::fields::{long_of, short_of};
use crate::place::Place;
use track_types::{
    Cell, Flaw, FormatFault, Frame, Kind, MAX_BLOCKS, MAX_OBJECTS, MAX_PERIOD, MAX_PLACE,
    MAX_RESOLUTION, MAX_SPAN, MAX_SYMBOLS, Section, Spelling,
};

/// How many bytes name the format and its version.
const MAGIC_LEN: usize = 8;

/// How far from 0 an instant and a coordinate may be.
const FAR: i64 = MAX_PLACE as i64;

/// The eight bytes that an index of a version begins with: `GRACT001`, `GRACT002`, `GRACT003`.
pub fn magic(version: u32) -> [u8; 8]
    requires { version ≤ MAX_VERSION }
    ensures { result ≡ magic version }
{
    [
        b'G',
        b'R',
        b'A',
        b'C',
        b'T',
        b'0',
        b'0',
        b'0' + version as u8,
    ]
}

/// The numbers of four bytes in a header.
#[derive(Clone, Copy)]
pub struct Sizes {
    pub period: u32,
    pub height: u32,
    pub objects: u32,
    pub span: u32,
    pub alphabet: u32,
    pub rules: u32,
    pub symbols: u32,
}

/// A header: the frame, and how long the lists are.
#[derive(Clone, Copy)]
pub struct Header {
    pub frame: Frame,
    pub objects: u32,
    pub alphabet: u32,
    pub rules: u32,
    pub symbols: u32,
}

fn header_flaw(index: usize, kind: Kind) -> Flaw
    ensures { result ≡ header_flaw index kind }
{
    Place::of(Section::Header, 0).flaw(index, kind)
}

/// The version that the eight bytes at the front name.
#[tactic(auto, unfolding(crate::specs::Reading::version_at))]
fn version_of(bytes: &[u8]) -> Result<(u32, &[u8]), FormatFault>
    ensures exact { Gives (λ x. (x.0, x.1.now)) result (version_at bytes.now) }
{
    if bytes.len() < MAGIC_LEN {
        return Err(FormatFault::Flaw(header_flaw(0, Kind::Short)));
    }
    let (front, rest) = bytes.split_at(MAGIC_LEN);
    if front == magic(1).as_slice() {
        return Ok((1, rest));
    }
    if front == magic(2).as_slice() {
        return Ok((2, rest));
    }
    if front == magic(3).as_slice() {
        return Ok((3, rest));
    }
    Err(FormatFault::Flaw(header_flaw(0, Kind::Magic)))
}

/// A field of four bytes in its range.
#[tactic(auto, unfolding(crate::specs::Reading::field_at))]
fn field_of(
    bytes: &[u8],
    index: usize,
    least: u32,
    greatest: u64,
) -> Result<(u32, &[u8]), FormatFault>
    ensures exact { Gives (λ x. (x.0, x.1.now)) result (field_at w32 index (is_in_range least greatest) bytes.now) }
    ensures within { IfOk result (λ x. (least ≤ x.0) × (x.0 ≤ greatest)) }
{
    let (number, rest) = short_of(bytes, header_flaw(index, Kind::Short))?;
    if number < least || u64::from(number) > greatest {
        return Err(FormatFault::Flaw(header_flaw(index, Kind::Field)));
    }
    Ok((number, rest))
}

/// How many units a cell or an instant has.
#[tactic(auto, unfolding(crate::specs::Reading::field_at))]
fn units_of(bytes: &[u8], index: usize) -> Result<(u64, &[u8]), FormatFault>
    ensures { Gives (λ x. (x.0, x.1.now)) result (field_at w64 index (is_in_range 1 MAX_RESOLUTION) bytes.now) }
{
    let (units, rest) = long_of(bytes, header_flaw(index, Kind::Short))?;
    if units < 1 || units > MAX_RESOLUTION {
        return Err(FormatFault::Flaw(header_flaw(index, Kind::Field)));
    }
    Ok((units, rest))
}

/// The span, with which objects times periods are few enough.
#[tactic(auto, unfolding(crate::specs::Reading::field_at))]
fn span_of(bytes: &[u8], objects: u32, period: u32) -> Result<(u32, &[u8]), FormatFault>
    requires { 1 ≤ period }
    ensures exact { Gives (λ x. (x.0, x.1.now)) result (field_at w32 4 (is_span objects period) bytes.now) }
    ensures within { IfOk result (λ x. 1 ≤ x.0) }
{
    let (span, rest) = short_of(bytes, header_flaw(4, Kind::Short))?;
    let in_range = 1 <= span && u64::from(span) <= MAX_SPAN;
    if !in_range || u64::from(objects) * u64::from(span.div_ceil(period)) > MAX_BLOCKS {
        return Err(FormatFault::Flaw(header_flaw(4, Kind::Field)));
    }
    Ok((span, rest))
}

/// The first instant of a span.
#[tactic(auto, unfolding(crate::specs::Reading::signed_at))]
fn first_of(bytes: &[u8], index: usize, span: u32) -> Result<(i64, &[u8]), FormatFault>
    requires { 1 ≤ span }
    ensures { Gives (λ x. (x.0, x.1.now)) result (signed_at index (is_first span) bytes.now) }
{
    let (number, rest) = long_of(bytes, header_flaw(index, Kind::Short))?;
    let first = number.cast_signed();
    if first < -FAR || first > FAR - i64::from(span - 1) {
        return Err(FormatFault::Flaw(header_flaw(index, Kind::Field)));
    }
    Ok((first, rest))
}

/// A coordinate of the base.
#[tactic(auto, unfolding(crate::specs::Reading::signed_at))]
fn coordinate_of(bytes: &[u8], index: usize) -> Result<(i64, &[u8]), FormatFault>
    ensures { Gives (λ x. (x.0, x.1.now)) result (signed_at index is_near bytes.now) }
{
    let (number, rest) = long_of(bytes, header_flaw(index, Kind::Short))?;
    let coordinate = number.cast_signed();
    if coordinate < -FAR || coordinate > FAR {
        return Err(FormatFault::Flaw(header_flaw(index, Kind::Field)));
    }
    Ok((coordinate, rest))
}

/// How many symbols the logs have, where the file holds parts, else 0.
#[tactic(auto, unfolding(crate::specs::Reading::symbols_at))]
fn symbols_of(spelling: Spelling, bytes: &[u8]) -> Result<(u32, &[u8]), FormatFault>
    ensures { Gives (λ x. (x.0, x.1.now)) result (symbols_at spelling bytes.now) }
{
    if spelling.holds_parts() {
        field_of(bytes, 7, 0, MAX_SYMBOLS)
    } else {
        Ok((0, bytes))
    }
}

/// The header's numbers of four bytes.
#[tactic(auto, unfolding(crate::specs::Reading::sizes_at))]
fn sizes_of(spelling: Spelling, bytes: &[u8]) -> Result<(Sizes, &[u8]), FormatFault>
    ensures exact { Gives (λ x. (x.0, x.1.now)) result (sizes_at spelling bytes.now) }
    ensures within { IfOk result (λ x. 1 ≤ x.0.span) }
{
    let (period, rest) = field_of(bytes, 1, 1, MAX_PERIOD)?;
    let (height, rest) = field_of(rest, 2, 1, spelling.greatest_height().into())?;
    let (objects, rest) = field_of(rest, 3, 1, MAX_OBJECTS)?;
    let (span, rest) = span_of(rest, objects, period)?;
    let (alphabet, rest) = field_of(rest, 5, 0, MAX_SYMBOLS)?;
    let (rules, rest) = field_of(rest, 6, 0, MAX_SYMBOLS)?;
    let (symbols, rest) = symbols_of(spelling, rest)?;
    Ok((
        Sizes {
            period,
            height,
            objects,
            span,
            alphabet,
            rules,
            symbols,
        },
        rest,
    ))
}

/// The place of the first field of eight bytes.
fn long_place(spelling: Spelling) -> usize
    ensures { result ≡ long_place spelling }
{
    if spelling.holds_parts() { 8 } else { 7 }
}

/// The header at the front, and the bytes after it.
pub fn header_of(bytes: &[u8]) -> Result<(Header, &[u8]), FormatFault>
    ensures exact { Gives (λ x. (x.0, x.1.now)) result (header_at bytes.now) }
    ensures ranges { IfOk result (λ x. IsHeader x.0) }
{
    whole_header(bytes)
}

// The header at the front, and the bytes after it.
#[tactic(auto, unfolding(crate::specs::Reading::header_at))]
fn whole_header(bytes: &[u8]) -> Result<(Header, &[u8]), FormatFault>
    ensures { Gives (λ x. (x.0, x.1.now)) result (header_at bytes.now) }
{
    let (version, rest) = version_of(bytes)?;
    fields_of(version, rest)
}

/// The header of a version, after the eight bytes that name it, and the bytes after it.
#[tactic(auto, unfolding(crate::specs::Reading::fields_at))]
fn fields_of(version: u32, bytes: &[u8]) -> Result<(Header, &[u8]), FormatFault>
    ensures { Gives (λ x. (x.0, x.1.now)) result (fields_at version bytes.now) }
{
    let spelling = Spelling::of(version);
    let (sizes, rest) = sizes_of(spelling, bytes)?;
    let place = long_place(spelling);
    let Sizes {
        period,
        height,
        objects,
        span,
        alphabet,
        rules,
        symbols,
    } = sizes;
    let (first, rest) = first_of(rest, place, span)?;
    let (x, rest) = coordinate_of(rest, place + 1)?;
    let (y, rest) = coordinate_of(rest, place + 2)?;
    let (cell, rest) = units_of(rest, place + 3)?;
    let (tick, rest) = units_of(rest, place + 4)?;
    let frame = Frame {
        version,
        first,
        span,
        period,
        height,
        base: Cell { x, y },
        cell,
        tick,
    };
    Ok((
        Header {
            frame,
            objects,
            alphabet,
            rules,
            symbols,
        },
        rest,
    ))
}
