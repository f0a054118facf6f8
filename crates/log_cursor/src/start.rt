ghost use Rattle.std.specs.Prelude.{◌≡◌};

use rule_store::Entry;
use track_types::Cell;

/// Where a block or a part of it begins: an anchor, by its absolute instant and its cell. What
/// follows begins an instant later.
#[derive(Clone, Copy, Debug, PartialEq, Eq)]
pub struct Start {
    pub instant: i64,
    pub cell: Cell,
}

impl Start {
    ghost use Rattle.log_cursor.specs.Start.{IsStart, start_after};

    /// Where a symbol leads from here, by its entry.
    pub fn after(self, entry: &Entry) -> Start
        requires { IsStart (start_after self entry.now) }
        ensures { result ≡ start_after self entry.now }
    {
        Start {
            instant: self.instant + entry.duration as i64,
            cell: Cell {
                x: self.cell.x + entry.dx,
                y: self.cell.y + entry.dy,
            },
        }
    }
}
