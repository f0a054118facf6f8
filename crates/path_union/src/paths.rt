ghost use Rattle.std.specs.Prelude.{◌≡◌, ◌+◌, ◌<◌, ◌≤◌, ℕ, List, [], All, IfNone, IfOk, IfSome, OnOk, Option, Some};
ghost use Rattle.path_union.specs.Paths.{IsFirstPath};
ghost use Rattle.path_union.specs.Reads.{IsTaken};
ghost use Rattle.track_types.specs.declared.row.Row.{Row};

use std::alloc::Global;
use track_types::{Memory, StopWalk};

/// The paths of all objects of an index or of a chart, by object, each of them by instant.
///
/// They are taken one after another. `rows` are those of the paths that are still to come, `next` is the object of the
/// next of them, and `count` says how many there are. `budget` bounds the reads that are still to be made for all of
/// them. `reads_past` bounds those until a row is passed: all for the paths of the objects before its object, and for
/// this object's path those until a stop at the row's instant or after it is drawn, or none is left. A path may have no
/// stop.
pub trait Paths {
    type Walk: StopWalk + Drop;

    ghost rows: { Self → List Row };

    ghost next: { Self → Option ℕ };

    ghost budget: { Self → ℕ };

    ghost reads_past: { Self → Row → ℕ };

    ghost count: { Self → ℕ };

    /// The object of the next path. It is none if and only if no path is to come.
    fn object(&self) -> Option<u32>
        ensures value { result ≡ next self.now }
        ensures least { IfSome result (λ object. All (λ (row : Row). object ≤ row.object) (rows self.now)) }
        ensures none { IfNone result (rows self.now ≡ []) };

    /// Takes the next path, which is that of this object. After a refusal nothing is known of the others.
    fn take_path(&mut self, alloc: Global, object: u32) -> Result<Self::Walk, Memory>
        requires { next self.old ≡ Some object }
        ensures path { IfOk result (λ walk.
            IsFirstPath object (Self.Walk.left walk) (rows self.old) (rows self.new)) }
        ensures cost { IfOk result (λ walk.
            Self.Walk.budget walk + budget self.new ≤ budget self.old) }
        ensures in_time { IfOk result (λ walk. IsTaken object (Self.Walk.budget walk)
            (Self.Walk.reads_past walk) (reads_past self.old) (reads_past self.new)) }
        ensures fewer { OnOk result (count self.new < count self.old) };
}
