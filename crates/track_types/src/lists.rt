ghost use Rattle.std.specs.Prelude.{◌≡◌};

use crate::period_parts::PeriodParts;
use std::marker::Model;

/// A list of numbers below 2^32, as objects, offsets or symbols.
///
/// It is made from a `Vec` and gives it back, and takes no memory. Contracts see the values in order.
#[derive(Debug, Drop)]
pub struct List32 {
    values: Vec<u32>,
}

impl Model for List32 {
    ghost use Rattle.std.specs.Prelude.{List, ℕ};

    ghost Value = { List ℕ };

    ghost view = { λ list. list.values.items };
}

impl List32 {
    /// The list of these values.
    pub fn new(values: Vec<u32>) -> List32
        ensures { result ≡ values.items }
    {
        List32 { values }
    }

    /// The values in order.
    pub fn as_slice(&self) -> &[u32]
        ensures { result.now ≡ self.now }
    {
        self.values.as_slice()
    }

    /// The `Vec` that the list was made from.
    pub fn into_vec(self) -> Vec<u32>
        ensures { result.items ≡ self }
    {
        self.values
    }
}

/// A list of numbers below 2^64, as the codes of movements.
///
/// It is made from a `Vec` and gives it back, and takes no memory. Contracts see the values in order.
#[derive(Debug, Drop)]
pub struct List64 {
    values: Vec<u64>,
}

impl Model for List64 {
    ghost use Rattle.std.specs.Prelude.{List, ℕ};

    ghost Value = { List ℕ };

    ghost view = { λ list. list.values.items };
}

impl List64 {
    /// The list of these values.
    pub fn new(values: Vec<u64>) -> List64
        ensures { result ≡ values.items }
    {
        List64 { values }
    }

    /// The values in order.
    pub fn as_slice(&self) -> &[u64]
        ensures { result.now ≡ self.now }
    {
        self.values.as_slice()
    }

    /// The `Vec` that the list was made from.
    pub fn into_vec(self) -> Vec<u64>
        ensures { result.items ≡ self }
    {
        self.values
    }
}

/// A list of pairs of numbers below 2^32, as the two parts of each grammar rule.
///
/// It is made from a `Vec` and gives it back, and takes no memory. Contracts see the pairs in order.
#[derive(Debug, Drop)]
pub struct PairList {
    pairs: Vec<(u32, u32)>,
}

impl Model for PairList {
    ghost use Rattle.std.specs.Prelude.{List, ℕ};

    ghost Value = { List (ℕ × ℕ) };

    ghost view = { λ list. list.pairs.items };
}

impl PairList {
    /// The list of these pairs.
    pub fn new(pairs: Vec<(u32, u32)>) -> PairList
        ensures { result ≡ pairs.items }
    {
        PairList { pairs }
    }

    /// The pairs in order.
    pub fn as_slice(&self) -> &[(u32, u32)]
        ensures { result.now ≡ self.now }
    {
        self.pairs.as_slice()
    }

    /// The `Vec` that the list was made from.
    pub fn into_vec(self) -> Vec<(u32, u32)>
        ensures { result.items ≡ self }
    {
        self.pairs
    }
}

/// A list of lists of numbers below 2^32, as the symbols of each block.
///
/// It is made from a `Vec` and gives it back, and takes no memory. Contracts see a list of lists.
#[derive(Debug, Drop)]
pub struct Lists32 {
    lists: Vec<List32>,
}

impl Model for Lists32 {
    ghost use Rattle.std.specs.Prelude.{List, ℕ};

    ghost Value = { List (List ℕ) };

    ghost view = { λ list. list.lists.items };
}

impl Lists32 {
    /// The list of these lists.
    pub fn new(lists: Vec<List32>) -> Lists32
        ensures { result ≡ lists.items }
    {
        Lists32 { lists }
    }

    /// The lists in order.
    pub fn as_slice(&self) -> &[List32]
        ensures { result.now ≡ self.now }
    {
        self.lists.as_slice()
    }

    /// The `Vec` that the list was made from.
    pub fn into_vec(self) -> Vec<List32>
        ensures { result.items ≡ self }
    {
        self.lists
    }
}

/// A list of what an index holds of its periods, in order.
///
/// It is made from a `Vec` and gives it back, and takes no memory. Contracts see the periods in order.
#[derive(Debug, Drop)]
pub struct PeriodList {
    periods: Vec<PeriodParts>,
}

impl Model for PeriodList {
    ghost use Rattle.std.specs.Prelude.{List};
    ghost use Rattle.track_types.specs.declared.period_parts.PeriodParts as declared;

    ghost Value = { List declared.PeriodParts };

    ghost view = { λ list. list.periods.items };
}

impl PeriodList {
    /// The list of these periods.
    pub fn new(periods: Vec<PeriodParts>) -> PeriodList
        ensures { result ≡ periods.items }
    {
        PeriodList { periods }
    }

    /// The periods in order.
    pub fn as_slice(&self) -> &[PeriodParts]
        ensures { result.now ≡ self.now }
    {
        self.periods.as_slice()
    }

    /// The `Vec` that the list was made from.
    pub fn into_vec(self) -> Vec<PeriodParts>
        ensures { result.items ≡ self }
    {
        self.periods
    }
}
