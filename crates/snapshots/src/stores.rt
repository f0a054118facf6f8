ghost use Rattle.std.specs.Prelude.{◌≡◌, ℕ, ◌+◌, ◌<◌, ◌≤◌, [], None, length, slice_get, IfErr, IfNone, IfOk, IfSome, OnOk, Some};
ghost use Rattle.step_count.specs.Reads.{is_of_period, ofPeriod, AllMay, ReadsWithin};
ghost use Rattle.track_types.specs.Frame.{periods_of};
ghost use Rattle.track_types.specs.PartsForm.{IsShaped};
ghost use Rattle.snapshots.specs.Bounded.{AreBounds};
ghost use Rattle.snapshots.specs.Flaws.{IsSnapFaultFor};
ghost use Rattle.snapshots.specs.IndexCost.{open_cost};
ghost use Rattle.snapshots.specs.JoinFlaws.{logs_flaw};
ghost use Rattle.snapshots.specs.Parts.{chart_in, index_in, period_in, rules_in, snapshot_in};
ghost use Rattle.snapshots.specs.SoundParts.{IsSound, IsValid};
ghost use Rattle.snapshots.specs.Speed.{speed_of, IsWithinReach};
ghost use Rattle.snapshots.specs.Stores.{join_of, AreOf};
ghost use Rattle.std.specs.Prelude.{◌*◌, filter, map, All, IsTrue};
ghost use Rattle.std.specs.List.{sum_by};
ghost use Rattle.snapshots.specs.Upgrade.{tree_reads, upgrade_of, upgraded_parts};
ghost use Rattle.k2_tree.specs.Pruning.{square_count};
ghost use Rattle.snapshots.specs.Cost.{block_reads, lookup_reads, square_reads};
ghost use Rattle.snapshots.specs.Objects.{WeighSame};
ghost use Rattle.snapshots.specs.Sound.{IsBlock};
ghost use Rattle.snapshots.specs.TrackTree.{AreKept};
ghost use Rattle.snapshots.specs.TrackWalk.{tracks_budget, tracks_left, tracks_needs};
ghost use Rattle.snapshots.specs.Tracks.{blocks_by_leaf, cell_box, may_hold, AreOnTracks};
ghost use Rattle.snapshots.specs.View.{all_blocks, block_of, tree_in};

use crate::anchored::Anchored;
use crate::bounded::keep_bounded;
use crate::fault::SnapFault;
use crate::kept_walk::KeptWalk;
use crate::logs::judge_snapshot;
use crate::snapshot::Snapshot;
use crate::track_tree::TrackTree;
use crate::tracks::Tracks;
use crate::upgrading::{newest, upgraded};
use box_tree::Search;
use log_bounds::PackedBounds;
use rule_store::RuleStore;
use std::alloc::Global;
use std::marker::Model;
use step_count::{Reads, Steps};
use track_types::{Frame, List32, Memory, Parts, PeriodList};

/// All that an index keeps: its header, its objects, its rules with the symbols of all logs, and a
/// snapshot and the speed of each period.
///
/// Contracts see the parts of the index that these make up. They are valid (`IsValid`).
#[derive(Drop)]
pub struct Stores {
    frame: Frame,
    objects: List32,
    rules: RuleStore,
    snaps: Vec<Snapshot>,
    // For each period, in cells an instant.
    speeds: Vec<u64>,
    // For each period. An index may have `MAX_SPAN` of them, most of them without a block.
    tracks: Vec<Option<Box<TrackTree>>>,
}

impl Model for Stores {
    ghost use Rattle.track_types.specs.declared.parts.Parts.{Parts};
    ghost use Rattle.snapshots.specs.Stores.{join_of, AreStores};

    ghost Value = { Parts };

    ghost view = { λ s. join_of s.frame s.objects s.rules s.snaps.items };

    ghost invariant = { λ s. AreStores (join_of s.frame s.objects s.rules s.snaps.items)
        s.rules s.snaps.items s.speeds.items s.tracks.items };
}

impl Stores {
    /// Joins the checked parts of an index, once the log of each block is judged, by period, then
    /// object.
    ///
    /// The first symbol of a log whose placed box passes the grid is `OffGrid`, at its place among all symbols. A box
    /// is placed by moving it to the cell in which the object was last present. After it comes a log that does not last
    /// to the end of its period: `Duration`, at the place of the block among those of its period. The flaw is the first
    /// one in this order.
    ///
    /// The objects ascend, and the height and the period of the rules are those of the header. The snapshots are those
    /// of its periods in order, and their logs stand one after another to the end of the symbols. It reads each stored
    /// symbol once, and what leads to the blocks of each snapshot. In the same pass it finds the speed of each period,
    /// and the box of each block's track, which `tracks` goes through. Memory is taken for these, and for the blocks of
    /// a period while the call runs.
    pub fn join<L: Reads>(
        alloc: Global,
        frame: Frame,
        objects: List32,
        rules: RuleStore,
        snaps: Vec<Snapshot>,
        steps: &mut Steps<L>,
    ) -> Result<Stores, SnapFault>
        requires of { AreOf (join_of frame objects rules snaps.items) rules snaps.items }
        requires may { AllMay L.may }
        ensures ok { IfOk result (λ stores. stores ≡ join_of frame objects rules snaps.items) }
        ensures exact { OnOk result (logs_flaw (join_of frame objects rules snaps.items) ≡ None) }
        ensures sound { OnOk result (IsSound (join_of frame objects rules snaps.items)) }
        ensures within { OnOk result (IsWithinReach (join_of frame objects rules snaps.items)) }
        ensures tracks { OnOk result ((number : ℕ) → number < periods_of frame
            → AreOnTracks (join_of frame objects rules snaps.items) number) }
        ensures flaw { IfErr result (λ fault.
            IsSnapFaultFor (logs_flaw (join_of frame objects rules snaps.items)) fault) }
        ensures cost { steps.new ≤ steps.old + open_cost (join_of frame objects rules snaps.items) }
    {
        let mut speeds = Vec::with_capacity(alloc, snaps.len())?;
        let mut tracks = Vec::with_capacity(alloc, snaps.len())?;
        for snapshot in &snaps {
            let number = speeds.len() as u32;
            let judged = judge_snapshot(alloc, &rules, snapshot, number, steps)?;
            speeds.push_reserved(judged.speed);
            tracks.push_reserved(judged.tracks);
        }
        let _ = rules.sizes(); // says that the rules are sound
        Ok(Stores {
            frame,
            objects,
            rules,
            snaps,
            speeds,
            tracks,
        })
    }

    /// Joins the parts of an index whose logs have no flaw, with what bounds each of them: the bounds of the blocks of
    /// each period in turn, by object, where cells are counted from the base of the grid.
    ///
    /// The parts are those that `join` takes, and the same stores come of them. It reads no symbol, but what leads to the
    /// blocks of each snapshot. The bounds of a period are let go when it is done. Memory is taken for what `join` keeps,
    /// and for the blocks of a period and their boxes while the call runs.
    pub fn join_bounded<L: Reads>(
        alloc: Global,
        frame: Frame,
        objects: List32,
        rules: RuleStore,
        snaps: Vec<Snapshot>,
        bounds: Vec<Vec<PackedBounds>>,
        steps: &mut Steps<L>,
    ) -> Result<Stores, Memory>
        requires of { AreOf (join_of frame objects rules snaps.items) rules snaps.items }
        requires flawless { logs_flaw (join_of frame objects rules snaps.items) ≡ None }
        requires bounds { AreBounds (join_of frame objects rules snaps.items) bounds.items }
        requires may { AllMay L.may }
        ensures ok { IfOk result (λ stores. stores ≡ join_of frame objects rules snaps.items) }
        ensures cost { steps.new ≤ steps.old + open_cost (join_of frame objects rules snaps.items) }
    {
        let mut speeds = Vec::with_capacity(alloc, snaps.len())?;
        let mut tracks = Vec::with_capacity(alloc, snaps.len())?;
        for of_period in bounds {
            let number = speeds.len();
            let snapshot = &snaps[number];
            let kept = keep_bounded(alloc, snapshot, number as u32, &of_period, steps)?;
            speeds.push_reserved(kept.speed);
            tracks.push_reserved(kept.tracks);
        }
        let _ = rules.sizes(); // says that the rules are sound
        Ok(Stores {
            frame,
            objects,
            rules,
            snaps,
            speeds,
            tracks,
        })
    }

    /// The header.
    pub fn frame(&self) -> &Frame
        ensures value { result.now ≡ self.now.frame }
        ensures shaped { IsShaped self.now }
        ensures valid { IsValid self.now }
    {
        &self.frame
    }

    /// The rules, with the symbols of all logs.
    pub fn rules(&self) -> &RuleStore
        ensures value { result.now ≡ rules_in self.now }
    {
        &self.rules
    }

    /// How many objects are listed: 1 to `MAX_OBJECTS`.
    pub fn objects(&self) -> u32
        ensures value { result ≡ length self.now.objects }
    {
        self.objects.as_slice().len() as u32
    }

    /// The object at a place, which is in range. Objects ascend.
    pub fn object_at(&self, index: u32) -> u32
        requires { index < length self.now.objects }
        ensures value { slice_get self.now.objects index ≡ Some result }
    {
        self.objects.as_slice()[index as usize]
    }

    /// The place of an object, and none if and only if it is no object of the index.
    pub fn index_of(&self, object: u32) -> Option<u32>
        ensures value { result ≡ index_in self.now.objects object }
    {
        match self.objects.as_slice().binary_search(&object) {
            Ok(index) => Some(index as u32),
            Err(_place) => None,
        }
    }

    /// The period of an instant, and none if and only if the instant is outside the header's span.
    pub fn period_of(&self, instant: i64) -> Option<u32>
        ensures value { result ≡ period_in self.now.frame instant }
        ensures valid { IsValid self.now }
    {
        self.frame.timeline().period_of(instant)
    }

    /// The snapshot of a period, which is one of the header's.
    pub fn snapshot(&self, period: u32) -> &Snapshot
        requires { period < periods_of self.now.frame }
        ensures value { result.now ≡ snapshot_in self.now period }
    {
        &self.snaps[period as usize]
    }

    /// The block of an object in a period, and `None` if and only if the object has none there. The period is one of the
    /// header's, and the object is given by its place among all objects, which is below their number.
    ///
    /// It goes from the object to its place among the present ones, by the inverse permutation to its place in leaf
    /// order, and takes what is kept there for searches: at most `lookup_reads`. It takes no memory.
    pub fn find<L: Reads>(&self, period: u32, index: u32, steps: &mut Steps<L>) -> Option<Anchored>
        requires period { period < periods_of self.now.frame }
        requires index { index < length self.now.objects }
        requires may { IsTrue (L.may (ofPeriod period)) }
        ensures value { result ≡ block_of (snapshot_in self.now period) index }
        ensures block { IfSome result (IsBlock (snapshot_in self.now period)) }
        ensures cost { steps.new ≤ steps.old + lookup_reads }
    {
        let (place, _rank) = self.snapshot(period).places_of(index, steps)?;
        let Some(kept) = self.kept(period) else {
            unreachable!(); // where no block is kept, no object has one
        };
        Some(kept.block(place, steps))
    }

    /// The blocks of a period that may hold what is sought, in leaf order. The period is one of the header's. Of such a
    /// block the anchor's cell passes the search's test of squares, and the track's box its test of boxes. The box of a
    /// track has the cells of all stops of its block. It takes no memory, and reads nothing until it is drawn from.
    pub fn tracks<S: Search + Drop>(&self, period: u32, search: S) -> Tracks<'_, S>
        requires { period < periods_of self.now.frame }
        ensures left { tracks_left S.squares S.boxes result
            ≡ filter (may_hold (S.squares search) (S.boxes search) (rules_in self.now))
            (blocks_by_leaf (snapshot_in self.now period)) }
        ensures blocks { All (IsBlock (snapshot_in self.now period))
            (tracks_left S.squares S.boxes result) }
        ensures weights { WeighSame (blocks_by_leaf (snapshot_in self.now period))
            (all_blocks (snapshot_in self.now period)) }
        ensures budget { tracks_budget S.squares S.boxes result
            ≤ square_reads * square_count (S.squares search) (tree_in (snapshot_in self.now period))
            + block_reads * length (filter (λ block. S.squares search (cell_box block.cell))
            (all_blocks (snapshot_in self.now period))) }
        ensures on_tracks { AreOnTracks self.now period }
        ensures needs { ReadsWithin (tracks_needs result) (is_of_period period) }
    {
        let _ = self.frame(); // says what holds of all stores
        match self.kept(period) {
            Some(kept) => Tracks::new(Some(KeptWalk::new(kept, search))),
            None => Tracks::new(None),
        }
    }

    /// What is kept of the blocks of a period, which is one of the header's, in leaf order. It is for
    /// searches that go over them in another way than `tracks`. `None` only where it has no block.
    pub fn kept(&self, period: u32) -> Option<&TrackTree>
        requires { period < periods_of self.now.frame }
        ensures none { IfNone result (blocks_by_leaf (snapshot_in self.now period) ≡ []) }
        ensures kept { IfSome result (λ kept. AreKept self.now.frame (rules_in self.now)
            (blocks_by_leaf (snapshot_in self.now period)) kept.now) }
        ensures period { IfSome result (λ kept. kept.now.number.value ≡ period) }
    {
        match &self.tracks[period as usize] {
            Some(kept) => Some(kept),
            None => None,
        }
    }

    /// The speed of a period, which is one of the header's, in cells an instant. At so many instants after the period's
    /// first, each object that has a block in it is at most so many times the speed away from its anchor, by columns
    /// and by lines alike.
    ///
    /// It is the greatest speed of a symbol in the period's logs. That is how far the symbol's placed box gets from the
    /// anchor, divided by how many instants after the anchor the symbol begins, rounded up. It is 0 where no object
    /// leaves its anchor.
    pub fn speed(&self, period: u32) -> u64
        requires { period < periods_of self.now.frame }
        ensures value { result ≡ speed_of self.now period }
    {
        self.speeds[period as usize]
    }

    /// Gives back the parts of the index in the newest version of the format, and the stores are
    /// gone. The header has that version, the trees are made anew from their cells, and all else
    /// stays. The parts are valid, and have the same chart.
    ///
    /// It makes no more reads than opening. Memory is taken for the list of periods, for the trees
    /// and their cells, and for the presence bits of periods without a block.
    pub fn into_upgraded<L: Reads>(
        self,
        alloc: Global,
        steps: &mut Steps<L>,
    ) -> Result<Parts, Memory>
        requires may { AllMay L.may }
        ensures ok { IfOk result (λ parts. parts ≡ upgrade_of self) }
        ensures valid { IfOk result IsValid }
        ensures chart { IfOk result (λ parts. chart_in parts ≡ chart_in self) }
        ensures cost { steps.new ≤ steps.old + open_cost self }
    {
        let Stores {
            frame,
            objects,
            rules,
            snaps,
            ..
        } = self;
        let periods = upgraded_periods(alloc, snaps, steps)?;
        let (alphabet, rules, symbols) = rules.into_lists();
        Ok(Parts {
            frame: newest(&frame),
            objects,
            alphabet,
            rules,
            periods,
            symbols,
        })
    }
}

// The parts of all periods, whose snapshots are given up, in the newest version.
fn upgraded_periods<L: Reads>(
    alloc: Global,
    snaps: Vec<Snapshot>,
    steps: &mut Steps<L>,
) -> Result<PeriodList, Memory>
    ensures ok { IfOk result (λ periods. periods ≡ map upgraded_parts snaps.items) }
    ensures cost { steps.new ≤ steps.old + sum_by tree_reads snaps.items }
{
    let mut periods = Vec::with_capacity(alloc, snaps.len())?;
    for snapshot in snaps {
        periods.push(upgraded(alloc, snapshot, steps)?)?;
    }
    Ok(PeriodList::new(periods))
}
