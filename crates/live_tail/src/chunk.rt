ghost use Rattle.std.specs.Prelude.{◌≡◌, ◌∷◌, All, IfOk, drop, take};
ghost use Rattle.track_types.specs.Near.{IsCellWithin};
ghost use Rattle.track_types.specs.declared.row.Row.{Row as RowView};
ghost use Rattle.live_tail.specs.Chunks.{AreChunksOf};

use std::alloc::Global;
use track_types::{CellBox, Extent, Memory, Row};

/// How many rows a chunk has, but for the last, which may have fewer.
pub const CHUNK_ROWS: usize = 16;

/// How far some rows reach: the extent of their instants, and a box with their cells.
#[derive(Clone, Copy)]
pub struct Chunk {
    pub time: Extent,
    pub area: CellBox,
}

impl Chunk {
    ghost use Rattle.live_tail.specs.Chunks.{IsChunkOf, chunk_of, chunk_with};

    // The chunk of one row.
    fn of(row: &Row) -> Chunk
        ensures { result ≡ chunk_of row.now }
    {
        Chunk {
            time: Extent {
                least: row.instant,
                greatest: row.instant,
            },
            area: CellBox::of(row.cell),
        }
    }

    // The chunk of the same rows and one more.
    fn with(self, row: &Row) -> Chunk
        ensures { result ≡ chunk_with self row.now }
    {
        Chunk {
            time: self.time.widened(row.instant),
            area: self.area.joined(&CellBox::of(row.cell)),
        }
    }

    // The chunk of a row and others.
    fn over(row: &Row, others: &[Row]) -> Chunk
        requires near { All (λ (row : RowView). IsCellWithin row.cell) (row.now ∷ others.now) }
        ensures { IsChunkOf (row.now ∷ others.now) result }
    {
        let mut chunk = Chunk::of(row);
        for other in others {
            chunk = chunk.with(other);
        }
        chunk
    }
}

/// The chunks of rows, in their order.
pub fn chunks_of(alloc: Global, rows: &[Row]) -> Result<Vec<Chunk>, Memory>
    requires { All (λ (row : RowView). IsCellWithin row.cell) rows.now }
    ensures { IfOk result (λ chunks. AreChunksOf rows.now chunks.items) }
{
    let mut chunks = Vec::with_capacity(alloc, rows.len().div_ceil(CHUNK_ROWS))?;
    let mut rest = rows;
    while let Some((row, later)) = rest.split_first() {
        let (others, behind) = cut(later, CHUNK_ROWS - 1);
        chunks.push(Chunk::over(row, others))?;
        rest = behind;
    }
    Ok(chunks)
}

/// The first of rows, as many as there are but at most `count`, and those behind.
pub fn cut(rows: &[Row], count: usize) -> (&[Row], &[Row])
    ensures front { result.0.now ≡ take count rows.now }
    ensures back { result.1.now ≡ drop count rows.now }
{
    rows.split_at(rows.len().min(count))
}
