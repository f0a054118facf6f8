use crate::head::HeadList;
use track_types::{List32, List64, Lists32};

/// The blocks of a chart, by period, then object, before there is a grammar.
#[derive(Debug, Drop)]
pub struct RawLogs {
    /// The values that the logs use, ascending: 0 for an absence, and a movement's code and one.
    pub alphabet: List64,
    /// The header of each block.
    pub heads: HeadList,
    /// The log of each block: one terminal for each later instant of its period, which is a place
    /// in the alphabet.
    pub terminals: Lists32,
}

/// The blocks of a chart, by period, then object, with the terminals of all logs in one list. So a
/// block takes no memory of its own.
#[derive(Debug, Drop)]
pub struct JoinedLogs {
    /// The values that the logs use, as in `RawLogs`.
    pub alphabet: List64,
    /// The header of each block.
    pub heads: HeadList,
    /// The terminals of all logs, one log after the other.
    pub terminals: List32,
    /// How many terminals each log has.
    pub lengths: List32,
}
