ghost use Rattle.std.specs.Prelude.{◌≡◌, ◌^◌, ◌≤◌, ◌≤ℤ◌, IfSome};
ghost use Rattle.track_types.specs.declared.limit.TheConstants.{MAX_PERIOD};

use crate::packed_box::PackedBox;
use crate::packed_entry::PackedEntry;

/// The entry of a symbol in 16 bytes, with its depth: that of a symbol whose numbers are small.
#[derive(Clone, Copy)]
pub(crate) struct NarrowEntry {
    duration: u16,
    depth: u16,
    dx: i16,
    dy: i16,
    x1: i16,
    y1: i16,
    x2: i16,
    y2: i16,
    ghost short: { duration ≤ MAX_PERIOD },
    ghost shallow: { depth ≤ 2 ^ 26 },
    ghost high: { x1 ≤ℤ x2 → y1 ≤ℤ y2 },
}

impl NarrowEntry {
    ghost use Rattle.rule_store.specs.Stored.{wide_entry};

    /// Packs an entry closer, if its numbers fit.
    pub(crate) fn pack(entry: PackedEntry) -> Option<NarrowEntry>
        ensures { IfSome result (λ narrow. wide_entry narrow ≡ entry) }
    {
        let duration = narrow_count(entry.duration)?;
        let depth = narrow_count(entry.depth)?;
        let dx = narrow_number(entry.dx)?;
        let dy = narrow_number(entry.dy)?;
        let x1 = narrow_number(entry.hull.x1)?;
        let y1 = narrow_number(entry.hull.y1)?;
        let x2 = narrow_number(entry.hull.x2)?;
        let y2 = narrow_number(entry.hull.y2)?;
        Some(NarrowEntry {
            duration,
            depth,
            dx,
            dy,
            x1,
            y1,
            x2,
            y2,
        })
    }

    /// The same entry in 32 bytes.
    #[inline(always)]
    pub(crate) fn widen(self) -> PackedEntry
        ensures { result ≡ wide_entry self }
    {
        PackedEntry {
            duration: u32::from(self.duration),
            depth: u32::from(self.depth),
            dx: i32::from(self.dx),
            dy: i32::from(self.dy),
            hull: PackedBox {
                x1: i32::from(self.x1),
                y1: i32::from(self.y1),
                x2: i32::from(self.x2),
                y2: i32::from(self.y2),
            },
        }
    }
}

// The count in 16 bits, if it fits.
fn narrow_count(count: u32) -> Option<u16>
    ensures { IfSome result (λ narrow. narrow ≡ count) }
{
    if count > 65_535 {
        return None;
    }
    Some(count as u16)
}

// The number in 16 bits, if it fits.
fn narrow_number(number: i32) -> Option<i16>
    ensures { IfSome result (λ narrow. narrow ≡ number) }
{
    if number < -32_768 || number > 32_767 {
        return None;
    }
    Some(number as i16)
}
