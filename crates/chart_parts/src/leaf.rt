ghost use Rattle.std.specs.Prelude.{◌≡◌, ◌<◌};
ghost use Rattle.k2_tree.specs.TreeBits.{code_limit};
ghost use Rattle.track_types.specs.declared.limit.TheConstants.{MAX_OBJECTS};
ghost use Rattle.chart_parts.specs.Leaf.{number_of};

use std::marker::Model;
use track_types::MAX_OBJECTS;

/// A block as a leaf of its period's tree: the Morton number of its anchor's cell, below 2^48, and the
/// block's place in its period by object, below 2^16.
///
/// Both stand in one number, so that a leaf takes eight bytes, and a sort by Morton number, then by
/// place, is one of plain numbers of which no two are the same.
#[derive(Clone, Copy)]
pub(crate) struct Leaf {
    number: u64,
}

impl Model for Leaf {
    ghost use Rattle.chart_parts.specs.Leaf.{LeafView, leaf_of_number, number_of, number_of-leaf};

    ghost Value = { LeafView };

    ghost view = { λ leaf. leaf_of_number leaf.number };

    ghost inverse = { λ leaf. record { number = number_of leaf } };

    ghost inverse_ok = { λ leaf h i. record { number = number_of-leaf leaf.number i } };
}

impl Leaf {
    /// The leaf of the block at a place, whose anchor's cell has this Morton number.
    pub(crate) fn new(code: u64, place: u32) -> Leaf
        requires code { code < code_limit }
        requires place { place < MAX_OBJECTS }
        ensures { result ≡ record { code = code; place = place } }
    {
        Leaf {
            number: code * MAX_OBJECTS + place as u64,
        }
    }

    /// What leaves are sorted by.
    pub(crate) fn number(self) -> u64
        ensures { result ≡ number_of self }
    {
        self.number
    }

    /// The Morton number of the anchor's cell.
    pub(crate) fn code(self) -> u64
        ensures { result ≡ self.code }
    {
        self.number / MAX_OBJECTS
    }

    /// The block's place in its period, by object.
    pub(crate) fn place(self) -> u32
        ensures { result ≡ self.place }
    {
        (self.number % MAX_OBJECTS) as u32
    }
}
