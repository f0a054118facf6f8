ghost use Rattle.std.specs.Prelude.{◌≡◌, ◌<◌, length, slice_index};
ghost use Rattle.snapshots.specs.SoundParts.{IsValid};
ghost use Rattle.track_index.specs.Listed.{is_listed};

use snapshots::Stores;
use std::marker::Model;

/// The index of a chart: its stores, and no rows.
///
/// Contracts see the parts that the stores make up, which are valid.
#[derive(Drop)]
pub struct Index {
    pub stores: Stores,
}

impl Model for Index {
    ghost use Rattle.track_types.specs.declared.parts.Parts.{Parts};

    ghost Value = { Parts };

    ghost view = { λ index. index.stores };
}

impl Index {
    /// The stores of the index.
    pub fn stores(&self) -> &Stores
        ensures value { result.now ≡ self.now }
        ensures valid { IsValid self.now }
    {
        let _ = self.stores.frame(); // says that the parts are valid
        &self.stores
    }

    /// The index as what answers questions.
    pub fn view(&self) -> IndexRef<'_>
        ensures { result.index.now ≡ self.now }
    {
        IndexRef { index: self }
    }
}

/// An index that is asked.
#[derive(Clone, Copy)]
pub struct IndexRef<'a> {
    pub index: &'a Index,
}

impl<'a> IndexRef<'a> {
    /// The object at a place among those that are listed, in ascending order. The place is in range. It
    /// takes no memory and makes no read.
    pub fn object_at(self, i: u32) -> u32
        requires { i < length (self.index.now).objects }
        ensures { result ≡ slice_index (self.entry.index.now).objects i }
    {
        self.index.stores().object_at(i)
    }

    /// Whether an object is listed, by a binary search. It takes no memory and makes no read.
    pub fn lists(self, object: u32) -> bool
        ensures { result ≡ is_listed object self.entry.index.now.objects }
    {
        self.index.stores().index_of(object).is_some()
    }
}
