ghost use Rattle.std.specs.Prelude.{◌≡◌, ℕ, List, ◌^◌, ◌<◌, ◌≤◌, false};
ghost use Rattle.spiral_code.specs.Spiral.{ring_of};
ghost use Rattle.track_types.specs.Near.{IsWithin};
ghost use Rattle.track_types.specs.declared.limit.TheConstants.{MAX_HEIGHT, MAX_PERIOD};

use crate::entry::Entry;
use crate::packed_box::PackedBox;

/// The entry of a symbol in 32 bytes, with its depth.
#[derive(Clone, Copy)]
pub(crate) struct PackedEntry {
    pub(crate) duration: u32,
    pub(crate) depth: u32,
    pub(crate) dx: i32,
    pub(crate) dy: i32,
    pub(crate) hull: PackedBox,
    ghost short: { duration ≤ MAX_PERIOD },
    ghost shallow: { depth ≤ 2 ^ 26 },
}

impl PackedEntry {
    ghost use Rattle.rule_store.specs.Entry.{entry_with, IsEntryWithin};
    ghost use Rattle.rule_store.specs.Flaws.{box_passes};
    ghost use Rattle.rule_store.specs.Stored.{IsPackedEntry};

    /// Packs an entry, whose distances stay within the reach of the highest grid.
    pub(crate) fn pack(entry: Entry, depth: u32) -> PackedEntry
        requires short { entry.duration ≤ MAX_PERIOD }
        requires shallow { depth ≤ 2 ^ 26 }
        requires near { ring_of entry.dx entry.dy < 2 ^ MAX_HEIGHT }
        requires within { box_passes MAX_HEIGHT entry.hull ≡ false }
        ensures packed { (symbol : ℕ) (values : List ℕ) → entry ≡ entry_with symbol values
            → IsPackedEntry values result }
        ensures depth { result.depth ≡ depth }
    {
        PackedEntry {
            duration: entry.duration,
            depth,
            dx: entry.dx as i32,
            dy: entry.dy as i32,
            hull: PackedBox::pack(entry.hull),
        }
    }

    /// How many cells the symbol moves to the right, and how many up, in all.
    pub(crate) fn displacement(self) -> (i64, i64)
        ensures right { result.0 ≡ self.dx }
        ensures up { result.1 ≡ self.dy }
        ensures right_within { IsWithin result.0 }
        ensures up_within { IsWithin result.1 }
    {
        (i64::from(self.dx), i64::from(self.dy))
    }

    /// The entry, as that of a symbol.
    pub(crate) fn unpack(self, symbol: u32) -> Entry
        ensures value { (values : List ℕ) → IsPackedEntry values self
            → result ≡ entry_with symbol values }
        ensures within { IsEntryWithin result }
    {
        let (dx, dy) = self.displacement();
        Entry {
            symbol,
            duration: self.duration,
            dx,
            dy,
            hull: self.hull.unpack(),
        }
    }
}
