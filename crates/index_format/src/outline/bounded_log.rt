ghost use Rattle.std.specs.Prelude.{◌≡◌, ◌≤◌, true};
ghost use Rattle.log_bounds.specs.Bounds.{IsPackable};
ghost use Rattle.track_types.specs.declared.limit.TheConstants.{MAX_HEIGHT};
ghost use Rattle.index_format.specs.OutlineBlocks.{is_in_grid};

use crate::outline::entries::LogRest;
use crate::outline::grid::cell_past;
use log_bounds::LogBounds;
use rule_store::Entry;

/// A log as far as it was read: how many instants it stands for, where it has come to, and the bounds of its symbols so far.
#[derive(Clone, Copy)]
pub struct BoundedLog {
    pub whole: u32,
    pub at: LogRest,
    pub bounds: LogBounds,
    ghost begins: { is_in_grid MAX_HEIGHT bounds.from ≡ true },
    ghost passed: { at.rest ≤ whole },
    ghost small: { IsPackable bounds },
}

impl BoundedLog {
    ghost use Rattle.std.specs.Prelude.{ℕ, List, ◌++◌, ◌∷◌, []};
    ghost use Rattle.rule_store.specs.Entry.{entry_of, IsEntryWithin};
    ghost use Rattle.rule_store.specs.View.{RulesView};
    ghost use Rattle.index_format.specs.OutlineBlocks.{stays_in};
    ghost use Rattle.index_format.specs.BlockSteps.{log_moved};
    ghost use Rattle.index_format.specs.LogReading.{IsReadBehind};
    ghost use Rattle.index_format.specs.declared.outline.entries.LogRest as declared;

    /// A log of which no symbol was read.
    pub fn begun(start: LogRest) -> BoundedLog
        requires { is_in_grid MAX_HEIGHT start.cell ≡ true }
        ensures at { result.at ≡ start }
        ensures read { (view : RulesView) (before : List ℕ) → IsReadBehind view start before before result }
    {
        BoundedLog {
            whole: start.rest,
            at: start,
            bounds: LogBounds::of(start.cell),
        }
    }

    /// The log with one symbol more, which has this entry.
    pub fn with(self, height: u32, entry: &Entry) -> BoundedLog
        requires height { height ≤ MAX_HEIGHT }
        requires cell { is_in_grid height self.at.cell ≡ true }
        requires stays { stays_in height self.at.cell entry.now.hull ≡ true }
        requires entry { IsEntryWithin entry.now }
        requires lasts { entry.now.duration ≤ self.at.rest }
        ensures at { result.at ≡ log_moved self.at entry.now }
        ensures read { (view : RulesView) (start : declared.LogRest) (before symbols : List ℕ) (symbol : ℕ)
            → entry.now ≡ entry_of view symbol → IsReadBehind view start before symbols self
            → IsReadBehind view start before (symbols ++ symbol ∷ []) result }
    {
        let passed = u64::from(self.whole - self.at.rest);
        BoundedLog {
            whole: self.whole,
            at: LogRest {
                rest: self.at.rest - entry.duration,
                cell: cell_past(height, self.at.cell, entry),
            },
            bounds: self.bounds.with(self.at.cell, passed, &entry.hull),
        }
    }
}
