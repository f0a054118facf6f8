ghost use Rattle.std.specs.Prelude.{◌≡◌, ◌^◌, ◌<◌, ◌≤◌};
ghost use Rattle.rule_store.specs.Table.{symbols_of};
ghost use Rattle.track_types.specs.PartsForm.{width_for};
ghost use Rattle.track_types.specs.declared.limit.TheConstants.{MAX_HEIGHT, MAX_PERIOD, MAX_SPAN};

use crate::width::width_for;
use rule_store::EntryTable;
use track_types::Frame;

/// What blocks are read over: their frame, the entries of all symbols, how many these are, and how many bits one takes.
#[derive(Clone, Copy)]
pub struct Ground<'a> {
    pub frame: Frame,
    pub table: &'a EntryTable,
    pub symbols: u32,
    pub width: u32,
    ghost some: { 0 < frame.period },
    ghost period_fits: { frame.period ≤ MAX_PERIOD },
    ghost height_fits: { frame.height ≤ MAX_HEIGHT },
    ghost span_fits: { frame.span ≤ MAX_SPAN },
    ghost all: { symbols ≡ symbols_of table.now },
    ghost few: { symbols ≤ 2 ^ 26 },
    ghost exact: { width ≡ width_for symbols },
    ghost narrow: { width ≤ 26 },
}

impl<'a> Ground<'a> {
    /// The ground of blocks over a table with so many symbols.
    pub fn of(frame: &Frame, table: &'a EntryTable, symbols: u32) -> Ground<'a>
        requires some { 0 < frame.now.period }
        requires period_fits { frame.now.period ≤ MAX_PERIOD }
        requires height_fits { frame.now.height ≤ MAX_HEIGHT }
        requires span_fits { frame.now.span ≤ MAX_SPAN }
        requires all { symbols ≡ symbols_of table.now }
        requires few { symbols ≤ 2 ^ 26 }
        ensures frame { result.frame ≡ frame.now }
        ensures table { result.table.now ≡ table.now }
    {
        Ground {
            frame: *frame,
            table,
            symbols,
            width: width_for(symbols),
        }
    }
}
