ghost use Rattle.std.specs.Prelude.{◌≡◌, [], ◌∷◌, ◌++◌, List};
ghost use Rattle.gridding.specs.Survey.{is_object_of};
ghost use Rattle.track_types.specs.declared.row.Row.{Row};

use track_types::{Extents, Row};

/// Rows, with what was found of them.
#[derive(Drop)]
pub struct SurveyedRows {
    pub rows: Vec<Row>,
    pub survey: Survey,
}

/// What is found of rows that are looked at one after another.
#[derive(Clone, Copy)]
pub struct Survey {
    /// How many different objects rows in order have.
    pub objects: u64,
    /// The object of the last row.
    pub last: Option<u32>,
    /// The extents of the rows.
    pub extents: Extents,
}

impl Survey {
    ghost use Rattle.gridding.specs.Survey.{IsSurveyOf};

    /// The survey of no rows.
    pub fn start() -> Self
        ensures { IsSurveyOf [] result }
    {
        Survey {
            objects: 0,
            last: None,
            extents: Extents::empty(),
        }
    }

    /// The survey of the same rows and one more after them.
    pub fn with(self, row: &Row) -> Self
        ensures { (rows : List Row) → IsSurveyOf rows self → IsSurveyOf (rows ++ (row.now ∷ [])) result }
    {
        let again = is_object_of(self.last, row.object);
        Survey {
            objects: self.objects.saturating_add(u64::from(!again)),
            last: Some(row.object),
            extents: self.extents.with(row),
        }
    }

    /// The survey of all these rows.
    pub fn of(rows: &[Row]) -> Self
        ensures { IsSurveyOf rows.now result }
    {
        let mut survey = Survey::start();
        for row in rows {
            survey = survey.with(row);
        }
        survey
    }
}

fn is_object_of(before: Option<u32>, object: u32) -> bool
    ensures { result ≡ is_object_of before object }
{
    match before {
        Some(before) => before == object,
        None => false,
    }
}
