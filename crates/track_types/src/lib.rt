//! The plain values that all crates of gract speak of, and what they mean.
//!
//! They are
//! - cells, boxes and regions;
//! - rows and charts, with their limits;
//! - the parts of an index, and their flaws;
//! - questions, the traits of whatever answers them, and walks that find their items one by one;
//! - whole numbers in text.
//!
//! A `Chart` keeps in its type all that holds of gridded rows. An `Answerer` answers what filtering
//! its chart's rows gives.
#![tactic(auto)]

mod answerer;
mod bounds;
mod cell;
mod cell_box;
mod chart;
mod extents;
mod facts;
mod flaw;
mod format_fault;
mod frame;
mod hit;
mod lazy;
mod limit;
mod lists;
mod meeting;
mod meets;
mod memory;
mod near;
mod numeral;
mod parts;
mod period_parts;
mod question;
mod raw_row;
mod region;
mod row;
mod setting;
mod shape;
mod shapes;
mod sighting;
mod spelling;
mod stop;
mod stop_walk;
mod timeline;

pub use answerer::Answerer;
pub use bounds::{NumberFault, number_within};
pub use cell::Cell;
pub use cell_box::CellBox;
pub use chart::Chart;
pub use extents::{Extent, Extents};
pub use facts::Facts;
pub use flaw::{Flaw, Kind, Section};
pub use format_fault::FormatFault;
pub use frame::Frame;
pub use hit::Hit;
pub use lazy::drawn_items::Drawn;
pub use lazy::{Lazy, drawn};
pub use limit::{
    LimitKind, MAX_ASKED, MAX_BLOCKS, MAX_CSV, MAX_EXTENT, MAX_HEIGHT, MAX_INDEX,
    MAX_NARROW_HEIGHT, MAX_OBJECTS, MAX_PERIOD, MAX_PLACE, MAX_QUESTIONS, MAX_REACH,
    MAX_RESOLUTION, MAX_ROWS, MAX_SPAN, MAX_SYMBOLS, MAX_TREE, MAX_VERSION,
};
pub use lists::{List32, List64, Lists32, PairList, PeriodList};
pub use meeting::Meeting;
pub use meets::Meets;
pub use memory::Memory;
pub use near::Near;
pub use numeral::{Numeral, number};
pub use packed_bits::BitList;
pub use parts::Parts;
pub use period_parts::PeriodParts;
pub use question::Question;
pub use raw_row::{RawRow, RowFault};
pub use region::Region;
pub use row::Row;
pub use setting::Setting;
pub use shape::{Shape, dist2};
pub use shapes::Shapes;
pub use sighting::Sighting;
pub use spelling::Spelling;
pub use stop::Stop;
pub use stop_walk::StopWalk;
pub use timeline::Timeline;
