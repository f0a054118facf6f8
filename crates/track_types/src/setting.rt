ghost use Rattle.std.specs.Prelude.{◌≡◌, ◌≤◌, length};
ghost use Rattle.track_types.specs.FaultText.{setting_name};

/// A setting of a chart, in which two charts must agree to become one.
#[derive(Clone, Copy, Debug, PartialEq, Eq)]
pub enum Setting {
    /// Units of a cell.
    Cell,
    /// Units of time of an instant.
    Tick,
    /// Instants of a period.
    Period,
}

impl Setting {
    /// The setting's name in texts, in lower case.
    pub fn name(self) -> &'static str
        ensures value { result.now ≡ setting_name self }
        ensures short { length result.now ≤ 6 }
    {
        match self {
            Setting::Cell => "cell",
            Setting::Tick => "tick",
            Setting::Period => "period",
        }
    }
}
