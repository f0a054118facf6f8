use crate::receiver::Receiver;
use gridding::GriddedRows;
use row_reader::{RowParser, RowsFault};
use std::alloc::{AllocError, Global};
use track_types::RawRow;

/// Takes the bytes of a CSV file, and grids its rows.
#[derive(Drop)]
pub(crate) struct RowsReceiver {
    parser: RowParser,
    // The rows that the parser gave last. Their memory is used again.
    batch: Vec<RawRow>,
    rows: GriddedRows,
}

impl RowsReceiver {
    ghost use Rattle.std.specs.Prelude.{◌≡◌, ◌≤◌, ℕ, List, [], length, IfOk, IfErr};
    ghost use Rattle.track_types.specs.Limits.{IsResolution, limit_of};
    ghost use Rattle.track_types.specs.declared.limit.LimitKind.TheVariants.{Csv};
    ghost use Rattle.gridding.specs.GriddedRows.{HasGridded};
    ghost use Rattle.gract_top.specs.Receiving.{AreGriddedRowsOf, HasReceived, HasReceivedSince};
    ghost use Rattle.row_reader.specs.Rows.{IsRowsFault};

    // A receiver that took nothing yet, and grids by `cell` and `tick`.
    pub(crate) fn new(alloc: Global, cell: u64, tick: u64) -> Self
        requires cell { IsResolution cell }
        requires tick { IsResolution tick }
        ensures gridded { HasGridded cell tick [] result.rows }
        ensures fresh { HasReceivedSince result [] result }
    {
        RowsReceiver {
            parser: RowParser::new(alloc),
            batch: Vec::new(alloc),
            rows: GriddedRows::new(alloc, cell, tick),
        }
    }

    // The rows of the file that was taken, or its first refusal.
    pub(crate) fn finish(self) -> Result<GriddedRows, RowsFault>
        requires { (cell : ℕ) × (tick : ℕ) × (bytes : List ℕ) × HasReceived cell tick bytes self
            × (length bytes ≤ limit_of Csv) }
        ensures ok { IfOk result (λ rows. (cell tick : ℕ) (bytes : List ℕ) → HasReceived cell tick bytes self →
            AreGriddedRowsOf cell tick bytes rows) }
        ensures fault { IfErr result (λ fault. (cell tick : ℕ) (bytes : List ℕ) → HasReceived cell tick bytes self →
            IsRowsFault bytes fault) }
    {
        let RowsReceiver {
            parser,
            mut batch,
            mut rows,
        } = self;
        batch.clear();
        parser.finish(&mut batch)?;
        match rows.append(&batch) {
            Ok(()) => Ok(rows),
            Err(_refused) => Err(RowsFault::Memory),
        }
    }
}

impl Receiver for RowsReceiver {
    ghost use Rattle.gract_top.specs.Receiving.{HasReceivedSince};
    ghost use Rattle.track_types.specs.declared.limit.TheConstants.{MAX_CSV};

    ghost has_taken = { HasReceivedSince };

    ghost most = { MAX_CSV };

    fn take(&mut self, piece: &[u8]) -> Result<(), AllocError> {
        self.batch.clear();
        self.parser.take(piece, &mut self.batch)?;
        self.rows.append(&self.batch)
    }
}
