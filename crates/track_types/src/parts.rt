use crate::frame::Frame;
use crate::lists::{List32, List64, PairList, PeriodList};

/// All that an index holds: what is written to a file, and what is read from one.
///
/// The parts promise nothing by themselves. `IsShaped` in specs/ says when they have the form of an
/// index: numbers in their ranges, ascending lists, and lists as long as the header and the presence
/// bits say.
#[derive(Debug, Drop)]
pub struct Parts {
    pub frame: Frame,
    /// The objects' numbers, ascending.
    pub objects: List32,
    /// The values that the logs have, ascending: 0 for an absence, else a movement's code and one.
    pub alphabet: List64,
    /// The two symbols of each grammar rule. Rule j is the symbol `alphabet size + j`.
    pub rules: PairList,
    /// What each period holds but for the logs.
    pub periods: PeriodList,
    /// The symbols of all logs, by period, then object.
    pub symbols: List32,
}
