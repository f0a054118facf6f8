ghost use Rattle.std.specs.Prelude.{◌≡◌, ◌<◌, ◌≤◌, true, IfOk, IfErr, IfNone, IfSome, Ok, length};
ghost use Rattle.track_types.specs.Spelling.{holds_parts, spelling_of};
ghost use Rattle.track_types.specs.declared.limit.TheConstants.{MAX_INDEX};
ghost use Rattle.track_types.specs.declared.parts.Parts as declared;
ghost use Rattle.index_format.specs.Answers.{Gives, IsFormatFault};
ghost use Rattle.index_file.specs.File.{file_bytes, parts_in, IsFormed, IsFoundOf, IsNewest};

use index_format::{Decoded, FormatFault, Stored, encode_outline};
use log_bounds::PackedBounds;
use outline_parts::{BoundedParts, outline_of, parts_of_outline};
use rule_store::EntryTable;
use std::alloc::Global;
use track_types::{Memory, Parts};

/// The parts that a file holds, and what was found of them as they were read.
#[derive(Drop)]
pub struct FileParts {
    /// The parts.
    pub parts: Parts,
    /// What was found, where the file holds an outline. Then the parts are those of an index.
    pub found: Option<Found>,
}

/// What is found of the parts of an index as they are read.
#[derive(Drop)]
pub struct Found {
    /// For each period the bounds of the logs of its blocks, by object. Cells are counted from the base of the grid.
    pub bounds: Vec<Vec<PackedBounds>>,
    /// The entries of all symbols.
    pub table: EntryTable,
}

/// The parts that the bytes of an index file hold, in any version. There are at most `MAX_INDEX` bytes, and all are read.
///
/// `FormatFault::Flaw` is the first flaw from the front. Parts that have the form of an index are decoded from their own
/// bytes alone. It takes memory for the parts and, for an outline, for its blocks and their logs once more.
pub fn decode(alloc: Global, bytes: &[u8]) -> Result<Parts, FormatFault>
    requires { length bytes.now ≤ MAX_INDEX }
    ensures ok { IfOk result (λ parts. parts_in bytes.now ≡ Ok parts) }
    ensures formed { IfOk result IsFormed }
    ensures spelled { IfOk result (λ parts. bytes.now ≡ file_bytes parts) }
    ensures one { (parts : declared.Parts) → IsFormed parts → bytes.now ≡ file_bytes parts
        → Gives (λ found. found) result (Ok parts) }
    ensures flaw { IfErr result (IsFormatFault (parts_in bytes.now)) }
{
    let read = decode_found(alloc, bytes)?;
    Ok(read.parts)
}

/// The parts that the bytes of an index file hold, as `decode` reads them, with what is found of them in an outline.
/// By this an index is opened without a second look at its rules and logs.
pub fn decode_found(alloc: Global, bytes: &[u8]) -> Result<FileParts, FormatFault>
    requires { length bytes.now ≤ MAX_INDEX }
    ensures ok { IfOk result (λ read. parts_in bytes.now ≡ Ok read.parts) }
    ensures formed { IfOk result (λ read. IsFormed read.parts) }
    ensures spelled { IfOk result (λ read. bytes.now ≡ file_bytes read.parts) }
    ensures one { (parts : declared.Parts) → IsFormed parts → bytes.now ≡ file_bytes parts
        → Gives (λ read. read.parts) result (Ok parts) }
    ensures flaw { IfErr result (IsFormatFault (parts_in bytes.now)) }
    ensures found { IfOk result (λ read. IfSome read.found (IsFoundOf read.parts)) }
    ensures older { IfOk result
        (λ read. IfNone read.found (holds_parts (spelling_of read.parts.frame.version) ≡ true)) }
{
    read_file(alloc, bytes)
}

// The parts that the bytes hold, with what is found of them.
#[tactic(auto, unfolding(crate::specs::File::parts_in))]
fn read_file(alloc: Global, bytes: &[u8]) -> Result<FileParts, FormatFault>
    requires { length bytes.now ≤ MAX_INDEX }
    ensures parts { Gives (λ read. read.parts) result (parts_in bytes.now) }
    ensures found { IfOk result (λ read. IfSome read.found (IsFoundOf read.parts)) }
    ensures older { IfOk result
        (λ read. IfNone read.found (holds_parts (spelling_of read.parts.frame.version) ≡ true)) }
{
    let Decoded {
        stored,
        bounds,
        table,
    } = index_format::decode(alloc, bytes)?;
    match stored {
        Stored::Parts(parts) => Ok(FileParts { parts, found: None }),
        Stored::Outline(outline) => {
            let BoundedParts { parts, bounds } = parts_of_outline(alloc, outline, bounds)?;
            Ok(FileParts {
                parts,
                found: Some(Found { bounds, table }),
            })
        }
    }
}

/// The bytes of the index file that holds these parts. The parts are those of an index in the newest version, with their
/// rules in order. There are fewer than `MAX_INDEX` bytes.
///
/// It takes memory for the bytes, and for the blocks and their logs once more.
pub fn encode(alloc: Global, parts: Parts) -> Result<Vec<u8>, Memory>
    requires { IsNewest parts }
    ensures ok { IfOk result (λ bytes. bytes.items ≡ file_bytes parts) }
    ensures short { IfOk result (λ bytes. length bytes.items < MAX_INDEX) }
{
    let outline = outline_of(alloc, parts)?;
    encode_outline(alloc, &outline)
}
