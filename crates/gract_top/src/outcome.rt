use track_types::{Flaw, LimitKind, RowFault, Setting};

/// How a call of the program ended.
#[derive(Clone, Copy, Debug, PartialEq, Eq)]
pub enum Outcome {
    /// Everything was done.
    Done,
    /// The command words have no form; the first bad one stands at this place, counted from 1.
    Words {
        place: u32,
    },
    /// A file could not be read.
    LoadFailed,
    /// A quantity passed its limit, at this value.
    Limit {
        kind: LimitKind,
        value: u64,
    },
    /// A record of the CSV file is no row.
    Row {
        nth: u64,
        field: u32,
        fault: RowFault,
    },
    /// There is no row: in the CSV file, in both of two index files, or in an index file and its tail.
    Empty,
    /// The bytes that were opened are not those of an index file; this is their first flaw.
    Flaw(Flaw),
    /// Two index files differ in a setting. They must agree to become one.
    Settings {
        setting: Setting,
        left: u64,
        right: u64,
    },
    /// This object is the least that is listed in both of two index files.
    Common {
        object: u32,
    },
    /// The index could not be saved, and its name may hold anything.
    SaveFailed,
    /// The questions could not be read.
    ListenFailed,
    /// The answers could not be written.
    SayFailed,
    /// Memory was refused.
    Memory,
}
