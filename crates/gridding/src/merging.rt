ghost use Rattle.std.specs.Prelude.{◌≡◌, ◌≤◌, ◌+◌, [], ◌++◌, IfOk, OnOk, find, reverse};
ghost use Rattle.gridding.specs.Blocks.{rows_of_run, rows_of_runs, runs_in};
ghost use Rattle.gridding.specs.Merging.{FindAlike};
ghost use Rattle.gridding.specs.Survey.{IsSurveyOf};
ghost use Rattle.track_types.specs.Row.{IsAscending, is_same_place};
ghost use Rattle.track_types.specs.declared.row.Row.{Row};

use crate::packed_place::{Origin, PackedPlace};
use crate::row_sorting::sorted_rows;
use crate::survey::{Survey, SurveyedRows};
use crate::track_blocks::Run;
use std::alloc::{AllocError, Global};
use track_types::Row;

/// The rows of runs and the loose ones that came after them, by object, then by instant, with their survey. Of an
/// object's rows in one instant the last is taken. `count` is how many rows there are.
pub fn merged_rows(
    alloc: Global,
    origin: Origin,
    runs: Vec<Run<'_>>,
    loose: &[Row],
    count: usize,
) -> Result<SurveyedRows, AllocError>
    ensures ascending { IfOk result (λ made. IsAscending made.rows.items) }
    ensures found { IfOk result (λ made. (sought : Row) →
        find (is_same_place sought) made.rows.items
        ≡ find (is_same_place sought) (reverse (rows_of_runs origin (runs_in runs.entry.items) ++ loose.now))) }
    ensures survey { IfOk result (λ made. IsSurveyOf made.rows.items made.survey) }
{
    if loose.is_empty() {
        rows_of_tracks(alloc, origin, runs, count)
    } else {
        sorted_rows(alloc, origin, runs.as_slice(), loose, count)
    }
}

// The rows of runs alone. Runs are taken object by object, and the rows of one object are sorted in a buffer of their
// own, which stays in a cache.
fn rows_of_tracks(
    alloc: Global,
    origin: Origin,
    mut runs: Vec<Run<'_>>,
    count: usize,
) -> Result<SurveyedRows, AllocError>
    ensures ascending { IfOk result (λ made. IsAscending made.rows.items) }
    ensures found { IfOk result (λ made.
        FindAlike (reverse (rows_of_runs origin (runs_in runs.entry.items))) made.rows.items) }
    ensures survey { IfOk result (λ made. IsSurveyOf made.rows.items made.survey) }
{
    // From the last on, and by a stable sort, so that an object's runs stand from its last to its first.
    runs.reverse();
    runs.sort_by_key(|&(object, _)| object)?;
    let mut merge = Merge {
        made: Vec::with_capacity(alloc, count)?,
        survey: Survey::start(),
        track: Vec::new(alloc),
        object: 0,
    };
    for &(object, places) in runs.iter() {
        merge.add_run(origin, object, places)?;
    }
    merge.end_track(origin)?;
    Ok(SurveyedRows {
        rows: merge.made,
        survey: merge.survey,
    })
}

// Rows that are in order, with their survey, and the track of the object that comes next.
#[derive(Drop)]
struct Merge {
    made: Vec<Row>,
    survey: Survey,
    track: Vec<PackedPlace>,
    object: u32,
}

impl Merge {
    ghost use Rattle.gridding.specs.Merging.{AreInOrder, IsSurveyed, rows_of_merge};

    // Adds a run's rows from the last to the first.
    fn add_run(
        &mut self,
        origin: Origin,
        object: u32,
        places: &[PackedPlace],
    ) -> Result<(), AllocError>
        ensures object { OnOk result (self.new.object ≡ object) }
        ensures order { OnOk result (self.old.object ≤ object →
            AreInOrder self.old.object self.old.made.items → AreInOrder object self.new.made.items) }
        ensures alike { OnOk result (FindAlike
            (rows_of_merge origin self.old ++ reverse (rows_of_run origin (object, places.now)))
            (rows_of_merge origin self.new)) }
        ensures survey { OnOk result (IsSurveyed self.old → IsSurveyed self.new) }
    {
        if object != self.object {
            self.end_track(origin)?;
            self.object = object;
        }
        push_from_last(&mut self.track, places)?;
        Ok(())
    }

    // Puts the track's rows after the others by instant, and of those in one instant the last that came.
    fn end_track(&mut self, origin: Origin) -> Result<(), AllocError>
        ensures ended { OnOk result (self.new.track.items ≡ []) }
        ensures order { OnOk result (AreInOrder self.old.object self.old.made.items →
            AreInOrder (self.old.object + 1) self.new.made.items) }
        ensures alike { OnOk result (FindAlike (rows_of_merge origin self.old) self.new.made.items) }
        ensures survey { OnOk result (IsSurveyed self.old → IsSurveyed self.new) }
    {
        // A stable sort, so that of the places in one instant the last that came stays the first.
        self.track.sort_by_key(|place| place.elapsed())?;
        self.track.dedup_by_key(|place| place.elapsed());
        // The survey is kept in registers while rows are put.
        let mut survey = self.survey;
        for place in self.track.iter() {
            let row = origin.row(self.object, *place);
            survey = survey.with(&row);
            self.made.push(row)?;
        }
        self.survey = survey;
        self.track.clear();
        Ok(())
    }
}

// Puts places after the others, from the last to the first. They are copied at once and then turned: a loop that takes
// them one by one would wait for each cache line of their block.
fn push_from_last(track: &mut Vec<PackedPlace>, places: &[PackedPlace]) -> Result<(), AllocError>
    ensures { OnOk result (track.new.items ≡ track.old.items ++ reverse places.now) }
{
    let start = track.len();
    track.extend_from_slice(places)?;
    track[start..].reverse();
    Ok(())
}
