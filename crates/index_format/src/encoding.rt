ghost use Rattle.std.specs.Prelude.{◌≡◌, ◌<◌, ◌≤◌, ◌^◌, ◌++◌, length, [], ◌∷◌, IfOk, OnOk};
ghost use Rattle.std.specs.Int.{w64, cast_unsigned};
ghost use Rattle.track_types.specs.PartsForm.{IsShaped};
ghost use Rattle.track_types.specs.Spelling.{spelling_of};
ghost use Rattle.track_types.specs.declared.limit.TheConstants.{MAX_VERSION};
ghost use Rattle.index_format.specs.Stored.{AreOldParts};
ghost use Rattle.index_format.specs.Spelling.{header_bytes, period_bytes, size_bytes, header_of, sizes_of, bytes_of_parts};

use crate::header::{Header, magic};
use crate::lengths::parts_len;
use crate::log::put_log;
use crate::putting::{put_bits, put_longs, put_rules, put_short, put_shorts};
use std::alloc::Global;
use track_types::{Memory, Parts, PeriodParts};

/// The header of shaped parts.
fn header_of(parts: &Parts) -> Header
    requires { IsShaped parts.now }
    ensures { result ≡ header_of parts.now }
{
    Header {
        frame: parts.frame,
        objects: parts.objects.as_slice().len() as u32,
        alphabet: parts.alphabet.as_slice().len() as u32,
        rules: parts.rules.as_slice().len() as u32,
        symbols: parts.symbols.as_slice().len() as u32,
    }
}

/// The header's numbers of eight bytes: the signed ones in two's complement.
fn places_of(first: i64, x: i64, y: i64, cell: u64, tick: u64) -> [u64; 5]
    ensures { result ≡ cast_unsigned w64 first ∷ cast_unsigned w64 x ∷ cast_unsigned w64 y ∷ cell ∷ tick ∷ [] }
{
    [
        first.cast_unsigned(),
        x.cast_unsigned(),
        y.cast_unsigned(),
        cell,
        tick,
    ]
}

/// Appends the header's numbers of four bytes.
#[tactic(auto, unfolding(crate::specs::Spelling::size_bytes, crate::specs::Spelling::symbols_bytes))]
fn put_sizes(out: &mut Vec<u8>, header: &Header) -> Result<(), Memory>
    ensures { OnOk result (out.new.items
        ≡ out.old.items ++ size_bytes (spelling_of header.now.frame.version) (sizes_of header.now)) }
{
    let Header {
        frame,
        objects,
        alphabet,
        rules,
        symbols,
    } = *header;
    put_shorts(
        out,
        &[
            frame.period,
            frame.height,
            objects,
            frame.span,
            alphabet,
            rules,
        ],
    )?;
    if frame.spelling().holds_parts() {
        put_short(out, symbols)?;
    }
    Ok(())
}

/// Appends the header.
pub fn put_header(out: &mut Vec<u8>, header: &Header) -> Result<(), Memory>
    requires { header.now.frame.version ≤ MAX_VERSION }
    ensures { OnOk result (out.new.items ≡ out.old.items ++ header_bytes header.now) }
{
    let frame = header.frame;
    out.extend_from_slice(&magic(frame.version))?;
    put_sizes(out, header)?;
    put_longs(
        out,
        &places_of(
            frame.first,
            frame.base.x,
            frame.base.y,
            frame.cell,
            frame.tick,
        ),
    )?;
    Ok(())
}

/// Appends the sections of a period.
#[tactic(auto, unfolding(crate::specs::Spelling::period_bytes))]
fn put_period(out: &mut Vec<u8>, period: &PeriodParts) -> Result<(), Memory>
    ensures { OnOk result (out.new.items ≡ out.old.items ++ period_bytes period.now) }
{
    put_bits(out, &period.present)?;
    put_shorts(out, period.offsets.as_slice())?;
    put_short(out, period.tree.len())?;
    put_bits(out, &period.tree)?;
    put_bits(out, &period.lasts)?;
    put_shorts(out, period.perm.as_slice())?;
    put_shorts(out, period.lengths.as_slice())
}

/// The bytes of an index file that holds these parts as they are.
///
/// A first pass over the periods counts the bytes, and memory is taken once, for as many. A second pass writes them.
pub fn encode(alloc: Global, parts: &Parts) -> Result<Vec<u8>, Memory>
    requires { AreOldParts parts.now }
    ensures ok { IfOk result (λ bytes. bytes.items ≡ bytes_of_parts parts.now) }
{
    let mut out = Vec::with_capacity(alloc, parts_len(parts))?;
    put_header(&mut out, &header_of(parts))?;
    put_shorts(&mut out, parts.objects.as_slice())?;
    put_longs(&mut out, parts.alphabet.as_slice())?;
    put_rules(&mut out, parts.rules.as_slice())?;
    for period in parts.periods.as_slice() {
        put_period(&mut out, period)?;
    }
    put_log(&mut out, parts)?;
    Ok(out)
}
