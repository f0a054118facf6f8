ghost use Rattle.std.specs.Prelude.{◌≡◌, ◌<◌, ◌≤◌, ◌+◌, List, [], ◌∷◌, ◌++◌, true, false, slice_get, take, length, Some, Ok};
ghost use Rattle.std.specs.Prelude.{IfOk, OnOk};
ghost use Rattle.std.specs.HashMap.{hash_map_len};
ghost use Rattle.gridding.specs.declared.track_blocks.TheConstants.{ROWS};
ghost use Rattle.track_types.specs.Limits.{limit_of};
ghost use Rattle.track_types.specs.Near.{IsRowInRange};
ghost use Rattle.track_types.specs.declared.row.Row.{Row};

mod recounting;

use crate::packed_place::{Origin, PackedPlace};
use std::alloc::{AllocError, Global};
use std::collections::HashMap;
use track_types::{Cell, LimitKind, MAX_OBJECTS, Row};

/// How many places a block has: enough that each block is read at once, and few enough that blocks that are not full
/// take little. Blocks of 63 places begin 504 bytes apart, and not 512: so the places that are written at the same time
/// are not all kept in the same few sets of a cache.
const ROWS: usize = 63;

/// Places of one object's rows, in the order in which they came.
pub type Run<'a> = (u32, &'a [PackedPlace]);

/// Rows in blocks, each of one object. An object's rows stand in the order in which they came.
#[derive(Drop)]
pub struct TrackBlocks {
    // From where places are counted.
    origin: Origin,
    // The places of each block. Those past its length are no row's.
    blocks: Vec<[PackedPlace; ROWS]>,
    // The object of each block.
    objects: Vec<u32>,
    // How many places of each block are filled. These and the objects stand apart from the blocks, so that a cache
    // holds them for all blocks that are written at the same time, one for each object. So no row waits for a load of
    // its block.
    lengths: Vec<u8>,
    // The last block of each object.
    last_of: HashMap<u32, usize>,
    // The block that was written last.
    recent: usize,
}

impl TrackBlocks {
    ghost use Rattle.gridding.specs.Blocks.{rows_with, runs_in, runs_of};
    ghost use Rattle.gridding.specs.GriddedRows.{AreBlocksOf, HasAdded, HasKept, HasRoom, IsFull};
    ghost use Rattle.gridding.specs.PackedPlace.{HasPlace, packed_row};

    /// No blocks. The first row decides from where places are counted.
    pub fn new(alloc: Global) -> Self
        ensures { AreBlocksOf [] result }
    {
        let nowhere = Row {
            object: 0,
            instant: 0,
            cell: Cell { x: 0, y: 0 },
        };
        TrackBlocks::counted_from(alloc, Origin::around(nowhere))
    }

    // No blocks, whose places are to be counted from an origin.
    #[tactic(auto, unfolding(crate::specs::Blocks::runs_of))]
    fn counted_from(alloc: Global, origin: Origin) -> Self
        ensures none { AreBlocksOf [] result }
        ensures origin { result.origin ≡ origin }
    {
        TrackBlocks {
            origin,
            blocks: Vec::new(alloc),
            objects: Vec::new(alloc),
            lengths: Vec::new(alloc),
            last_of: HashMap::new(alloc),
            recent: 0,
        }
    }

    /// From where the places of blocks are counted.
    pub fn origin(&self) -> Origin
        ensures { result ≡ self.now.origin }
    {
        self.origin
    }

    /// Puts a row after those of its object, and answers whether it could. A row is left out that is too far from the
    /// others. So is one whose object has no block, once there are as many objects as a chart may have. So a file in
    /// which each row has another object does not take a block a row.
    #[inline]
    pub fn add(&mut self, row: Row) -> Result<bool, AllocError>
        requires { IsRowInRange row }
        ensures { IfOk result (HasAdded row self.old self.new) }
    {
        if let Some(place) = self.origin.place(row) {
            let guess = self.guess(row.object);
            if self.put(row.object, guess, place) {
                return Ok(true);
            }
        }
        self.add_anywhere(row)
    }

    // Puts a row whose block was not guessed.
    #[inline(never)]
    fn add_anywhere(&mut self, row: Row) -> Result<bool, AllocError>
        requires { IsRowInRange row }
        ensures { IfOk result (HasAdded row self.old self.new) }
    {
        if self.is_one_too_many(row.object) {
            return Ok(false);
        }
        self.begin_around(row);
        let Some(place) = self.origin.place(row) else {
            return self.add_far(row);
        };
        self.put_known(row.object, place)?;
        Ok(true)
    }

    // Whether the object has no block, and there are as many objects as a chart may have.
    fn is_one_too_many(&self, object: u32) -> bool
        ensures { result ≡ true → (rows : List Row) → AreBlocksOf rows self.now →
            (rows_with object rows ≡ []) × (limit_of LimitKind.Objects ≤ hash_map_len self.now.last_of) }
    {
        self.last_of.len() >= MAX_OBJECTS as usize && !self.last_of.contains_key(&object)
    }

    // Has places counted from around this row's, where it is the first row.
    fn begin_around(&mut self, row: Row)
        requires { IsRowInRange row }
        ensures kept { HasKept self.old self.new }
        ensures away { (HasPlace self.new.origin row → ⊥) → (0 < length self.old.blocks.items) × (self.new ≡ self.old) }
    {
        if self.blocks.is_empty() {
            self.origin = Origin::around(row);
        }
    }

    // A block that may be the object's last. A wrong guess costs time alone. While the rows are those of one object,
    // nothing is hashed.
    #[inline]
    fn guess(&self, object: u32) -> usize {
        match self.objects.get(self.recent) {
            Some(&owner) if owner == object => self.recent,
            _ => self.last_of.get(&object).copied().unwrap_or(usize::MAX),
        }
    }

    // Puts a place into the object's last block, or into a new one.
    fn put_known(&mut self, object: u32, place: PackedPlace) -> Result<(), AllocError>
        ensures put { OnOk result ((rows : List Row) → AreBlocksOf rows self.old →
            AreBlocksOf (rows ++ (packed_row self.old.origin object place ∷ [])) self.new) }
        ensures origin { self.new.origin ≡ self.old.origin }
    {
        match self.last_of.get(&object).copied() {
            Some(last) => {
                if self.put(object, last, place) {
                    return Ok(());
                }
            }
            None => {}
        }
        self.open(object, place)
    }

    // Puts a place into a block, if it is one of the object and has room. It is then the object's last, since no block is
    // opened before the one before is full. Nothing of the block is read. A block that has an object is there with its
    // length, but the type does not say so; `get_mut` costs what an index would.
    #[inline]
    fn put(&mut self, object: u32, guess: usize, place: PackedPlace) -> bool
        ensures left_out { result ≡ false → self.new ≡ self.old }
        ensures full { result ≡ false → (rows : List Row) → AreBlocksOf rows self.old →
            slice_get self.old.objects.items guess ≡ Some object → HasRoom self.old guess → ⊥ }
        ensures put { result ≡ true → (rows : List Row) → AreBlocksOf rows self.old →
            AreBlocksOf (rows ++ (packed_row self.old.origin object place ∷ [])) self.new }
        ensures origin { self.new.origin ≡ self.old.origin }
    {
        let length = match (self.objects.get(guess), self.lengths.get(guess)) {
            (Some(&owner), Some(&length)) if owner == object && (length as usize) < ROWS => length,
            _ => return false,
        };
        match self.blocks.get_mut(guess) {
            Some(places) => {
                write(places, length, place);
                self.lengths[guess] = length + 1;
                self.recent = guess;
                true
            }
            None => false,
        }
    }

    // Opens a block of the object, with this place in it. All blocks that the object has must be full.
    fn open(&mut self, object: u32, place: PackedPlace) -> Result<(), AllocError>
        ensures opened { OnOk result ((rows : List Row) → AreBlocksOf rows self.old → IsFull object self.old →
            AreBlocksOf (rows ++ (packed_row self.old.origin object place ∷ [])) self.new) }
        ensures origin { self.new.origin ≡ self.old.origin }
    {
        let last = self.blocks.len();
        self.blocks.push([place; ROWS])?;
        self.objects.push(object)?;
        self.lengths.push(1)?;
        self.last_of.insert(object, last)?;
        self.recent = last;
        Ok(())
    }

    /// The filled places of each block with its object, an object's in the order of its rows.
    pub fn runs(&self, alloc: Global) -> Result<Vec<Run<'_>>, AllocError>
        ensures { IfOk result (λ runs. runs_in runs.items ≡ runs_of self.now) }
    {
        let mut runs = Vec::with_capacity(alloc, self.blocks.len())?;
        let blocks = self.blocks.iter().zip(self.lengths.iter());
        for (&object, (places, &length)) in self.objects.iter().zip(blocks) {
            runs.push((object, filled_part(places, length)))?;
        }
        Ok(runs)
    }
}

// Writes a place after so many that a block has.
#[inline]
fn write(places: &mut [PackedPlace; ROWS], length: u8, place: PackedPlace)
    requires { length < ROWS }
    ensures { take (length + 1) places.new ≡ take length places.old ++ (place ∷ []) }
{
    places[length as usize] = place;
}

// So many places of a block, from the first on.
fn filled_part(places: &[PackedPlace], filled: u8) -> &[PackedPlace]
    ensures { result.now ≡ take filled places.now }
{
    &places[..(filled as usize).min(places.len())]
}
