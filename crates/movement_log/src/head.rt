ghost use Rattle.std.specs.Prelude.{◌≡◌};

use std::marker::Model;
use track_types::Cell;

/// The header of a block: whose it is, and where its object stands first (its anchor).
#[derive(Clone, Copy, Debug, PartialEq, Eq)]
pub struct Head {
    /// The period, from 0.
    pub period: u32,
    /// The object's place among all objects of the chart.
    pub index: u32,
    /// How many instants of the period come before the anchor.
    pub offset: u32,
    /// The anchor's cell.
    pub cell: Cell,
}

/// A list of block headers.
///
/// It is made from a `Vec` and gives it back, and takes no memory. Contracts see the headers in
/// order.
#[derive(Debug, Drop)]
pub struct HeadList {
    heads: Vec<Head>,
}

impl Model for HeadList {
    ghost use Rattle.std.specs.Prelude.{List};
    ghost use Rattle.movement_log.specs.declared.head.Head.{Head as HeadView};

    ghost Value = { List HeadView };

    ghost view = { λ list. list.heads.items };
}

impl HeadList {
    /// The list of these headers.
    pub fn new(values: Vec<Head>) -> HeadList
        ensures { result ≡ values.items }
    {
        HeadList { heads: values }
    }

    /// The headers in order.
    pub fn as_slice(&self) -> &[Head]
        ensures { result.now ≡ self.now }
    {
        self.heads.as_slice()
    }

    /// The `Vec` that the list was made from.
    pub fn into_vec(self) -> Vec<Head>
        ensures { result.items ≡ self }
    {
        self.heads
    }
}
