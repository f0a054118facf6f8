/// A grid cell, by its column and its row. A cell may lie left of or below the origin.
#[derive(Clone, Copy, Debug, PartialEq, Eq)]
pub struct Cell {
    pub x: i64,
    pub y: i64,
}
