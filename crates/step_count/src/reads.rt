ghost use Rattle.std.specs.Prelude.{Bool, true};
ghost use Rattle.step_count.specs.Reads.{Read};

use std::marker::Brand;
use std::sync::ledger::Ledger;

/// A ledger on which reads are counted, and which reads may be made on it.
///
/// A call over every such ledger requires that those reads may be made which it needs. It is proved
/// for the ledger that allows these and no other, too, so it makes no other.
pub trait Reads: Ledger {
    ghost may: { Read → Bool };
}

/// The ledger that a program picks allows every read.
impl Reads for Brand {
    ghost may = { λ _. true };
}
