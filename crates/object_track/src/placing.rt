ghost use Rattle.std.specs.Prelude.{◌≡◌, ◌<◌, Some};
ghost use Rattle.track_types.specs.Frame.{periods_of};
ghost use Rattle.rule_store.specs.Log.{log_of};
ghost use Rattle.rule_store.specs.Needs.{places_of};
ghost use Rattle.log_cursor.specs.Start.{start_at, IsPlaced};
ghost use Rattle.snapshots.specs.Needs.{block_places};
ghost use Rattle.snapshots.specs.Parts.{anchored_at, log_in, rules_in, snapshot_in};
ghost use Rattle.snapshots.specs.Sound.{IsBlock};

use log_cursor::Start;
use rule_store::LogView;
use snapshots::{Anchored, Stores};

/// The log of a block, and where the block begins.
#[derive(Clone, Copy)]
pub struct Placed<'a> {
    pub log: LogView<'a>,
    pub start: Start,
}

impl<'a> Placed<'a> {
    /// The log of a block of a period, and its anchor's instant and cell.
    pub fn new(stores: &'a Stores, period: u32, block: &Anchored) -> Placed<'a>
        requires period { period < periods_of stores.now.frame }
        requires block { IsBlock (snapshot_in stores.now period) block.now }
        ensures rules { result.log.rules.now ≡ rules_in stores.now }
        ensures places { places_of result.log ≡ block_places (Some block.now) }
        ensures log { log_of result.log ≡ log_in stores.now block.now }
        ensures start { result.start
            ≡ start_at (anchored_at stores.now.frame period block.now) block.now.cell }
        ensures placed { IsPlaced result.log.rules.now result.start (log_of result.log) }
    {
        let frame = stores.frame();
        let elapsed = u64::from(period) * u64::from(frame.period) + u64::from(block.offset);
        let start = Start {
            instant: frame.first + elapsed as i64,
            cell: block.cell,
        };
        let log = stores.rules().block(block.from, block.len);
        Placed { log, start }
    }
}
