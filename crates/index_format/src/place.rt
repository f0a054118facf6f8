ghost use Rattle.std.specs.Prelude.{◌≡◌};
ghost use Rattle.index_format.specs.Fields.{flaw_at};

use track_types::{Flaw, Kind, Section};

/// A section of one period. Outside the sections of periods the period is 0. So it is for the log of a
/// file that holds parts, whose symbols are read as one list.
#[derive(Clone, Copy)]
pub struct Place {
    pub section: Section,
    pub period: u32,
}

impl Place {
    /// The section of that period.
    pub fn of(section: Section, period: u32) -> Place
        ensures { result ≡ record { section = section; period = period } }
    {
        Place { section, period }
    }

    /// The flaw of an element of the section.
    pub fn flaw(self, index: usize, kind: Kind) -> Flaw
        ensures { result ≡ flaw_at self.section self.period index kind }
    {
        Flaw {
            section: self.section,
            period: self.period,
            index: index as u64,
            kind,
        }
    }
}
