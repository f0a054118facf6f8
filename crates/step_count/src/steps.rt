ghost use Rattle.std.specs.Prelude.{◌≡◌, ℕ, ◌+◌, ◌<◌};

use std::marker::Model;
use std::sync::ledger::{Blank, Book, Ledger, Share};

/// How many reads were made. Contracts see it as a number, which only `tick` changes.
///
/// One step is one read of a word, of a directory entry, or of a place of a list. The count lives in
/// contracts alone: a `Steps` has no bytes.
#[derive(Drop)]
pub struct Steps<L: Ledger> {
    book: Book<L>,
    share: Share<L>,
}

impl<L: Ledger> Model for Steps<L> {
    ghost Value = { ℕ };

    ghost view = { λ s. s.book.total };

    // Some part of the ledger is here, so that the count may grow.
    ghost invariant = { λ s. 0 < s.share.parts };
}

impl<L: Ledger> Steps<L> {
    /// A counter of no reads, which opens the blank ledger for `L`.
    ///
    /// A `HostRuntime` exists in `main` and in tests alone. A library can make no counter of its own,
    /// so each of its reads goes to the counter of its caller.
    pub fn new(_host: &HostRuntime, blank: Blank) -> Self
        requires name { blank.name ≡ L.name }
        requires parts { blank.parts ≡ L.parts }
        requires some { 0 < L.parts }
        ensures { result ≡ 0 }
    {
        let (book, share) = blank.open();
        Steps { book, share }
    }

    /// Counts one read.
    pub fn tick(&mut self)
        ensures { self.new ≡ self.old + 1 }
    {
        self.book.add(&mut self.share, 1);
    }
}
