ghost use Rattle.std.specs.Prelude.{◌≡◌, ◌<◌, ◌+◌, length, slice_get, Some};

use super::Steps;
use super::one_read::OneRead;
use std::marker::Model;
use std::sync::ledger::Ledger;

/// A list each of whose reads is counted. Contracts see it as the list of its items.
///
/// A structure keeps in such lists all that its bounds on reads speak of. While the structure is
/// lent, `at` is the only way to an item, and it counts the read.
#[derive(Drop)]
pub struct CountedList<T: OneRead> {
    items: Vec<T>,
}

impl<T: OneRead> Model for CountedList<T> {
    ghost use Rattle.std.specs.Prelude.{List};

    ghost Value = { List T };

    ghost view = { λ list. list.items.items };
}

impl<T: OneRead> CountedList<T> {
    /// The list of these items. It takes no memory.
    pub fn new(items: Vec<T>) -> CountedList<T>
        ensures { result ≡ items.items }
    {
        Self { items }
    }

    /// How many items there are. Nothing is counted.
    pub fn len(&self) -> usize
        ensures { result ≡ length self.now }
    {
        self.items.len()
    }

    /// The item at a place, by one read.
    pub fn at<L: Ledger>(&self, index: usize, steps: &mut Steps<L>) -> T
        requires { index < length self.now }
        ensures value { slice_get self.now index ≡ Some result }
        ensures cost { steps.new ≡ steps.old + 1 }
    {
        steps.tick();
        self.items[index]
    }

    /// Gives the items back, and the list is gone.
    pub fn into_vec(self) -> Vec<T>
        ensures { result.items ≡ self }
    {
        let CountedList { items } = self;
        items
    }
}
