ghost use Rattle.std.specs.Prelude.{◌≡◌, ◌+◌, ◌++◌, ◌≤◌, ◌^◌, length, OnOk};
ghost use Rattle.track_types.specs.PartsForm.{IsShaped, symbol_width, width_for};
ghost use Rattle.track_types.specs.Spelling.{spelling_of};
ghost use Rattle.track_types.specs.declared.limit.TheConstants.{MAX_SYMBOLS};
ghost use Rattle.index_format.specs.Answers.{Gives};
ghost use Rattle.index_format.specs.Fields.{log_at};
ghost use Rattle.index_format.specs.Spelling.{log_bytes};

use crate::header::Header;
use crate::lists::shorts_of;
use crate::packed::bits_of;
use crate::packing::put_packed;
use crate::place::Place;
use crate::putting::put_shorts;
use crate::unpacking::unpacked;
use crate::width::width_for;
use std::alloc::Global;
use track_types::{FormatFault, List32, Memory, Parts, Section};

/// The symbols of all logs, and the bytes after them.
#[tactic(auto, unfolding(crate::specs::Fields::log_at, crate::specs::Fields::packed_at))]
pub fn log_of(alloc: Global, header: Header, bytes: &[u8]) -> Result<(List32, &[u8]), FormatFault>
    requires few { header.symbols ≤ MAX_SYMBOLS }
    requires told { header.alphabet + header.rules ≤ 2 ^ 26 }
    ensures { Gives (λ x. (x.0, x.1.now)) result
        (log_at (spelling_of header.frame.version) (width_for (header.alphabet + header.rules))
        header.symbols bytes.now) }
{
    let place = Place::of(Section::Log, 0);
    if !header.frame.spelling().packs_symbols() {
        return shorts_of(alloc, place, header.symbols, bytes);
    }
    let width = width_for(header.alphabet + header.rules);
    let (bits, rest) = bits_of(alloc, place, width * header.symbols, bytes)?;
    let symbols = unpacked(alloc, &bits, width, header.symbols)?;
    Ok((List32::new(symbols), rest))
}

/// How many bits a symbol of shaped parts takes where symbols are packed: 1 to 26.
fn width_of(parts: &Parts) -> u32
    requires { IsShaped parts.now }
    ensures exact { result ≡ symbol_width parts.now }
    ensures narrow { result ≤ 26 }
{
    let told = parts.alphabet.as_slice().len() + parts.rules.as_slice().len();
    width_for(told as u32)
}

/// How many bytes the log of shaped parts takes.
pub fn log_len(parts: &Parts) -> usize
    requires { IsShaped parts.now }
    ensures exact { result
        ≡ length (log_bytes (spelling_of parts.now.frame.version) (symbol_width parts.now) parts.now.symbols) }
    ensures within { result ≤ 2 ^ 27 }
{
    let count = parts.symbols.as_slice().len();
    if parts.frame.spelling().packs_symbols() {
        return (width_of(parts) as usize * count).div_ceil(8);
    }
    4 * count
}

/// Appends the log of shaped parts.
#[tactic(auto, unfolding(crate::specs::Spelling::log_bytes))]
pub fn put_log(out: &mut Vec<u8>, parts: &Parts) -> Result<(), Memory>
    requires { IsShaped parts.now }
    ensures { OnOk result (out.new.items ≡ out.old.items
        ++ log_bytes (spelling_of parts.now.frame.version) (symbol_width parts.now) parts.now.symbols) }
{
    let symbols = parts.symbols.as_slice();
    if parts.frame.spelling().packs_symbols() {
        return put_packed(out, width_of(parts), symbols);
    }
    put_shorts(out, symbols)
}
