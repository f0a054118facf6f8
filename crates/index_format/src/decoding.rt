ghost use Rattle.std.specs.Prelude.{◌≡◌, ◌≤◌, IfOk, IfErr, Ok, length};
ghost use Rattle.track_types.specs.declared.limit.TheConstants.{MAX_INDEX};
ghost use Rattle.index_format.specs.Headers.{IsHeader};
ghost use Rattle.index_format.specs.declared.stored.Stored as declared;
ghost use Rattle.index_format.specs.Answers.{Gives, IsFormatFault};
ghost use Rattle.rule_store.specs.Table.{IsWholeTable};
ghost use Rattle.index_format.specs.OutlineBounds.{IfOutline, bounds_in, rules_read};
ghost use Rattle.index_format.specs.Reading.{parts_after};
ghost use Rattle.index_format.specs.Stored.{stored_after, stored_in, stored_bytes, IsStored};

use crate::decoded::Decoded;
use crate::header::{Header, header_of};
use crate::lists::{alphabet_of, objects_of, rules_of};
use crate::log::log_of;
use crate::outline::{ReadOutline, outline_after};
use crate::periods::periods_of;
use crate::place::Place;
use crate::stored::Stored;
use rule_store::EntryTable;
use std::alloc::Global;
use track_types::{FormatFault, Kind, Parts, Section};

/// What the bytes of an index file store, with what bounds the logs of an outline and the entries of its symbols. There are at most `MAX_INDEX` bytes, and all
/// are read.
///
/// `FormatFault::Flaw` is the first flaw from the front. All that has the form of an index is decoded from its own bytes
/// alone. Memory is taken only as the bytes warrant: a list is made as long as the bytes that are left can hold, or grows as
/// its elements are read. So does the list of bounds, which takes 28 bytes for each block.
pub fn decode(alloc: Global, bytes: &[u8]) -> Result<Decoded, FormatFault>
    requires { length bytes.now ≤ MAX_INDEX }
    ensures ok { IfOk result (λ decoded. stored_in bytes.now ≡ Ok decoded.stored) }
    ensures formed { IfOk result (λ decoded. IsStored decoded.stored) }
    ensures spelled { IfOk result (λ decoded. bytes.now ≡ stored_bytes decoded.stored) }
    ensures one { (stored : declared.Stored) → IsStored stored → bytes.now ≡ stored_bytes stored
        → Gives (λ decoded. decoded.stored) result (Ok stored) }
    ensures bounds { IfOk result (λ decoded. IfOutline decoded.stored
        (λ outline. decoded.bounds.items ≡ bounds_in outline)) }
    ensures table { IfOk result (λ decoded. IfOutline decoded.stored
        (λ outline. IsWholeTable (rules_read outline) decoded.table)) }
    ensures flaw { IfErr result (IsFormatFault (stored_in bytes.now)) }
{
    decoded_of(alloc, bytes)
}

// What the bytes store, from the first byte to the last.
#[tactic(auto, unfolding(crate::specs::Stored::stored_in))]
fn decoded_of(alloc: Global, bytes: &[u8]) -> Result<Decoded, FormatFault>
    ensures exact { Gives (λ decoded. decoded.stored) result (stored_in bytes.now) }
    ensures bounds { IfOk result (λ decoded. IfOutline decoded.stored
        (λ outline. decoded.bounds.items ≡ bounds_in outline)) }
    ensures table { IfOk result (λ decoded. IfOutline decoded.stored
        (λ outline. IsWholeTable (rules_read outline) decoded.table)) }
{
    let (header, rest) = header_of(bytes)?;
    decoded_after(alloc, header, rest)
}

// What all bytes after the header store.
#[tactic(auto, unfolding(crate::specs::Stored::stored_after))]
fn decoded_after(alloc: Global, header: Header, bytes: &[u8]) -> Result<Decoded, FormatFault>
    requires { IsHeader header }
    ensures exact { Gives (λ decoded. decoded.stored) result (stored_after header bytes.now) }
    ensures bounds { IfOk result (λ decoded. IfOutline decoded.stored
        (λ outline. decoded.bounds.items ≡ bounds_in outline)) }
    ensures table { IfOk result (λ decoded. IfOutline decoded.stored
        (λ outline. IsWholeTable (rules_read outline) decoded.table)) }
{
    if header.frame.spelling().holds_parts() {
        let parts = parts_after(alloc, header, bytes)?;
        return Ok(Decoded {
            stored: Stored::Parts(parts),
            bounds: Vec::new(alloc),
            table: EntryTable::new(alloc, header.frame.height, header.frame.period),
        });
    }
    let ReadOutline {
        outline,
        bounds,
        table,
    } = outline_after(alloc, header, bytes)?;
    Ok(Decoded {
        stored: Stored::Outline(outline),
        bounds,
        table,
    })
}

// The parts that all bytes after the header hold.
#[tactic(auto, unfolding(crate::specs::Reading::parts_after))]
fn parts_after(alloc: Global, header: Header, bytes: &[u8]) -> Result<Parts, FormatFault>
    requires { IsHeader header }
    ensures { Gives (λ parts. parts) result (parts_after header bytes.now) }
{
    let (objects, rest) = objects_of(alloc, header.objects, bytes)?;
    let (alphabet, rest) = alphabet_of(alloc, header.alphabet, rest)?;
    let (rules, rest) = rules_of(alloc, header.rules, rest)?;
    let count = header.frame.timeline().periods();
    let (periods, rest) = periods_of(alloc, header.objects, count, rest)?;
    let (symbols, rest) = log_of(alloc, header, rest)?;
    if !rest.is_empty() {
        return Err(FormatFault::Flaw(Place::of(Section::End, 0).flaw(0, Kind::Extra)));
    }
    Ok(Parts {
        frame: header.frame,
        objects,
        alphabet,
        rules,
        periods,
        symbols,
    })
}
