ghost use Rattle.std.specs.Prelude.{◌≡◌, ◌≤◌, length};
ghost use Rattle.track_types.specs.FaultText.{limit_name};
ghost use Rattle.track_types.specs.Limits.{limit_of};

/// The greatest length of a CSV file in bytes, 2^29.
pub const MAX_CSV: u64 = 536_870_912;

/// The greatest count of data rows of a CSV file, 2^24.
pub const MAX_ROWS: u64 = 16_777_216;

/// The greatest count of different objects, 2^16.
pub const MAX_OBJECTS: u64 = 65_536;

/// The greatest count of instants from the first to the last, both counted, 2^22.
pub const MAX_SPAN: u64 = 4_194_304;

/// The greatest extent: cells from the least to the greatest of an axis, both counted, 2^24.
pub const MAX_EXTENT: u64 = 16_777_216;

/// The greatest count of blocks, objects times periods, 2^24.
pub const MAX_BLOCKS: u64 = 16_777_216;

/// The greatest count of terminals of all logs before the grammar, 2^25.
pub const MAX_SYMBOLS: u64 = 33_554_432;

/// The greatest length of an index file in bytes, 2^30.
pub const MAX_INDEX: u64 = 1_073_741_824;

/// The greatest length of question input in bytes, 2^32.
pub const MAX_QUESTIONS: u64 = 4_294_967_296;

/// The greatest height of a tree over cells, whose grid has a side of 2^height cells.
pub const MAX_HEIGHT: u32 = 24;

/// The greatest height of a tree whose levels all split a square in four.
pub const MAX_NARROW_HEIGHT: u32 = 20;

/// The newest version of the format of an index.
pub const MAX_VERSION: u32 = 3;

/// The greatest resolution, 2^30: units of a cell, or units of time of an instant.
pub const MAX_RESOLUTION: u64 = 1_073_741_824;

/// The greatest period in instants, 2^22.
pub const MAX_PERIOD: u64 = 4_194_304;

/// How far from 0 the times, the instants and the coordinates of rows may be, 2^40.
pub const MAX_PLACE: u64 = 1_099_511_627_776;

/// How far from 0 the instants and the coordinates that are asked for may be, 2^41.
pub const MAX_ASKED: u64 = 2_199_023_255_552;

/// The greatest radius and the greatest distance that are asked for, and how far from 0 the
/// coordinates that are compared may be, 2^42.
pub const MAX_REACH: u64 = 4_398_046_511_104;

/// The greatest count of bits of a period's tree, 2^31.
pub const MAX_TREE: u64 = 2_147_483_648;

/// A quantity that has a greatest value.
#[derive(Clone, Copy, Debug, PartialEq, Eq)]
pub enum LimitKind {
    /// Bytes of the CSV file.
    Csv,
    /// Data rows of the CSV file.
    Rows,
    /// Different objects.
    Objects,
    /// Instants from the first to the last, both counted.
    Span,
    /// Cells from the least to the greatest of an axis, both counted.
    Extent,
    /// Objects times periods.
    Blocks,
    /// Terminals of all logs before the grammar.
    Symbols,
    /// Bytes of an index file.
    Index,
    /// Bytes of question input.
    Questions,
    /// Cells that a cell of an index lies away from 0, along either axis.
    Base,
}

impl LimitKind {
    /// The greatest value of the quantity, in the unit in which it is counted.
    pub fn greatest(self) -> u64
        ensures { result ≡ limit_of self }
    {
        match self {
            LimitKind::Csv => MAX_CSV,
            LimitKind::Rows => MAX_ROWS,
            LimitKind::Objects => MAX_OBJECTS,
            LimitKind::Span => MAX_SPAN,
            LimitKind::Extent => MAX_EXTENT,
            LimitKind::Blocks => MAX_BLOCKS,
            LimitKind::Symbols => MAX_SYMBOLS,
            LimitKind::Index => MAX_INDEX,
            LimitKind::Questions => MAX_QUESTIONS,
            LimitKind::Base => MAX_PLACE,
        }
    }

    /// The quantity's name in texts, in lower case.
    pub fn name(self) -> &'static str
        ensures value { result.now ≡ limit_name self }
        ensures short { length result.now ≤ 9 }
    {
        match self {
            LimitKind::Csv => "csv",
            LimitKind::Rows => "rows",
            LimitKind::Objects => "objects",
            LimitKind::Span => "span",
            LimitKind::Extent => "extent",
            LimitKind::Blocks => "blocks",
            LimitKind::Symbols => "symbols",
            LimitKind::Index => "index",
            LimitKind::Questions => "questions",
            LimitKind::Base => "base",
        }
    }
}
