ghost use Rattle.std.specs.Prelude.{◌≡◌, [], ◌∷◌, ◌++◌, ◌<◌, is_ok, length, map, slice_index_or, IfOk, if◌then◌else◌};
ghost use Rattle.rule_store.specs.Stored.{entries_of, wide_entry};

use crate::narrow_entry::NarrowEntry;
use crate::packed_entry::PackedEntry;
use std::alloc::Global;
use track_types::Memory;

/// Packed entries, in 16 bytes each as long as all of them fit, else in 32. Contracts see them as a list (`entries_of`).
#[derive(Drop)]
pub(crate) enum PackedEntries {
    Narrow(Vec<NarrowEntry>),
    Wide(Vec<PackedEntry>),
}

impl PackedEntries {
    /// No entries, of a grid of this height and periods of this length.
    pub(crate) fn new(alloc: Global, height: u32, period: u32) -> PackedEntries
        ensures { entries_of result ≡ [] }
    {
        if are_narrow(height, period) {
            PackedEntries::Narrow(Vec::new(alloc))
        } else {
            PackedEntries::Wide(Vec::new(alloc))
        }
    }

    /// The same, with room for so many.
    pub(crate) fn with_room(
        alloc: Global,
        height: u32,
        period: u32,
        count: usize,
    ) -> Result<PackedEntries, Memory>
        ensures { IfOk result (λ entries. entries_of entries ≡ []) }
    {
        if are_narrow(height, period) {
            Ok(PackedEntries::Narrow(Vec::with_capacity(alloc, count)?))
        } else {
            Ok(PackedEntries::Wide(Vec::with_capacity(alloc, count)?))
        }
    }

    /// How many entries there are.
    pub(crate) fn len(&self) -> usize
        ensures { result ≡ length (entries_of self.now) }
    {
        match self {
            PackedEntries::Narrow(list) => list.len(),
            PackedEntries::Wide(list) => list.len(),
        }
    }

    /// The entry at a place.
    #[inline(always)]
    pub(crate) fn at(&self, place: usize) -> PackedEntry
        requires { place < length (entries_of self.now) }
        ensures { result ≡ slice_index_or (entries_of self.now) place result }
    {
        match self {
            PackedEntries::Narrow(list) => list[place].widen(),
            PackedEntries::Wide(list) => list[place],
        }
    }

    /// Adds an entry behind the others. Where it does not fit 16 bytes, all are kept in 32 from then on.
    pub(crate) fn push(&mut self, entry: PackedEntry) -> Result<(), Memory>
        ensures { entries_of self.new
            ≡ (if is_ok result then entries_of self.old ++ entry ∷ [] else entries_of self.old) }
    {
        match self {
            PackedEntries::Narrow(list) => match NarrowEntry::pack(entry) {
                Some(narrow) => list.push(narrow)?,
                None => {
                    let mut wide = widen(list)?;
                    wide.push(entry)?;
                    *self = PackedEntries::Wide(wide);
                }
            },
            PackedEntries::Wide(list) => list.push(entry)?,
        }
        Ok(())
    }
}

// Whether entries begin in 16 bytes. In such a grid and such periods those of a grammar fit: a
// displacement and a box are at most 32,767 away from 0, a terminal lasts one instant, and no rule
// lasts a whole period or is as deep as it lasts.
fn are_narrow(height: u32, period: u32) -> bool {
    height <= 15 && period <= 65_535
}

// The same entries in 32 bytes each, with as much room.
fn widen(list: &Vec<NarrowEntry>) -> Result<Vec<PackedEntry>, Memory>
    ensures { IfOk result (λ wide. wide.items ≡ map wide_entry list.now.items) }
{
    let mut wide = Vec::with_capacity(*list.allocator(), list.capacity())?;
    for entry in list {
        wide.push(entry.widen())?;
    }
    Ok(wide)
}
