ghost use Rattle.std.specs.Prelude.{◌≡◌, ℕ, ◌+◌, ◌-◌, ◌*◌, ◌≤◌, ◌<◌, [], length, map, true, Bool, IfOk, IfSome, OnOk, Some, All, IsTrue};
ghost use Rattle.step_count.specs.Reads.{ofPeriod, ReadsWithin};
ghost use Rattle.std.specs.List.{range_with_len};
ghost use Rattle.std.specs.BinaryHeap.{heap_items};
ghost use Rattle.k2_tree.specs.Squares.{Node};
ghost use Rattle.box_tree.specs.Cost.{box_reads, place_reads};
ghost use Rattle.box_tree.specs.Tree.{IsNodeOf};
ghost use Rattle.nearest_search.specs.Seeking.{quest_of, near_at, seek_reads_at, square_in, worth_left};
ghost use Rattle.track_types.specs.Near.{IsCellWithin};
ghost use Rattle.log_cursor.specs.Seek.{cell_among};
ghost use Rattle.snapshots.specs.IndexCost.{seek_cost};
ghost use Rattle.snapshots.specs.Parts.{snapshot_in, stops_of};
ghost use Rattle.snapshots.specs.Sound.{IsBlock};
ghost use Rattle.nearest_search.specs.Cost.{period_near_cost};
ghost use Rattle.nearest_search.specs.Kept.{ClosestView};
ghost use Rattle.nearest_search.specs.Needs.{period_near_needs};
ghost use Rattle.nearest_search.specs.Seeking.{AreAdded, AreSeeking, OpensWaiting, IsPaid, IsQueued, IsSearch};
ghost use Rattle.nearest_search.specs.declared.waiting.Waiting.TheVariants.{Node as AtNode, Place as AtPlace};

use crate::queue::Queue;
use crate::vantage::Vantage;
use crate::waiting::{Element, Waiting};
use arrayvec::ArrayVec;
use box_tree::{NodeKind, NodeRef, SLOTS};
use log_cursor::seek;
use object_track::Placed;
use snapshots::{Anchored, Stores, TrackTree};
use std::alloc::Global;
use step_count::{Reads, Steps};
use track_types::{Cell, Memory, Near, dist2};

/// A search in one period, for the objects that are near a cell at an instant.
#[derive(Clone, Copy)]
pub(crate) struct NearSearch<'a> {
    pub(crate) stores: &'a Stores,
    pub(crate) period: u32,
    /// What is kept of the blocks of the period.
    pub(crate) kept: &'a TrackTree,
    pub(crate) instant: i64,
    pub(crate) vantage: Vantage,
}

impl<'a> NearSearch<'a> {
    /// What waits at first: the node of the whole grid. It reads the node's box.
    pub(crate) fn begin<L: Reads>(
        &self,
        alloc: Global,
        steps: &mut Steps<L>,
    ) -> Result<Queue, Memory>
        requires search { IsSearch self.now }
        requires may { IsTrue (L.may (ofPeriod self.now.period)) }
        ensures seeking { IfOk result (λ queue. (count : ℕ) (closest : ClosestView) → 0 < count
            → closest.wanted ≡ count → closest.nears ≡ [] → AreSeeking (quest_of self.now) count
            steps.old (heap_items queue.heap) closest steps.new) }
        ensures cost { (count : ℕ) → 0 < count → steps.new ≤ steps.old + period_near_cost
            self.now.stores.now count self.now.period self.now.instant self.now.vantage.cell }
    {
        let mut queue = Queue::new(alloc);
        let Some(root) = self.kept.tree.root() else {
            return Ok(queue);
        };
        self.queue_node(root, &mut queue, steps)?;
        Ok(queue)
    }

    // Puts a node among what waits. It reads the node's box.
    fn queue_node<L: Reads>(
        &self,
        node: NodeRef,
        queue: &mut Queue,
        steps: &mut Steps<L>,
    ) -> Result<(), Memory>
        requires search { IsSearch self.now }
        requires node { IsNodeOf self.now.kept.now.tree node }
        requires may { IsTrue (L.may (ofPeriod self.now.period)) }
        ensures queued { OnOk result (IsQueued (quest_of self.now) (AtNode node)
            (heap_items queue.old.heap) (heap_items queue.new.heap)) }
        ensures cost { steps.new ≤ steps.old + box_reads }
    {
        let area = self.kept.tree.area(&node, steps);
        let square = self.kept.tree.square(&node);
        let key = self.vantage.key(&area, &square);
        let waiting = Waiting::Node(node);
        queue.push(Element { key, waiting })?;
        Ok(())
    }

    // Puts nodes among what waits, the last one first.
    fn queue_nodes<L: Reads>(
        &self,
        nodes: &mut ArrayVec<NodeRef, SLOTS>,
        queue: &mut Queue,
        steps: &mut Steps<L>,
    ) -> Result<(), Memory>
        requires search { IsSearch self.now }
        requires nodes { All (IsNodeOf self.now.kept.now.tree) nodes.old.items }
        requires may { IsTrue (L.may (ofPeriod self.now.period)) }
        ensures added { OnOk result (AreAdded (quest_of self.now) (map AtNode nodes.old.items)
            (heap_items queue.old.heap) (heap_items queue.new.heap)) }
        ensures cost { steps.new ≤ steps.old + box_reads * length nodes.old.items }
    {
        while let Some(node) = nodes.pop() {
            self.queue_node(node, queue, steps)?;
        }
        Ok(())
    }

    // Puts the places of a bucket among what waits, the last one first.
    fn queue_places<L: Reads>(
        &self,
        low: u32,
        high: u32,
        queue: &mut Queue,
        steps: &mut Steps<L>,
    ) -> Result<(), Memory>
        requires search { IsSearch self.now }
        requires within { high ≤ length self.now.kept.now.tree.places.codes }
        requires may { IsTrue (L.may (ofPeriod self.now.period)) }
        ensures added { OnOk result (AreAdded (quest_of self.now)
            (map AtPlace (range_with_len low (high - low)))
            (heap_items queue.old.heap) (heap_items queue.new.heap)) }
        ensures cost { steps.new ≤ steps.old + place_reads * (high - low) }
    {
        for place in (low..high).rev() {
            self.queue_place(place, queue, steps)?;
        }
        Ok(())
    }

    // Puts a place among what waits. It reads the place's box and its cell.
    fn queue_place<L: Reads>(
        &self,
        place: u32,
        queue: &mut Queue,
        steps: &mut Steps<L>,
    ) -> Result<(), Memory>
        requires search { IsSearch self.now }
        requires place { place < length self.now.kept.now.tree.places.codes }
        requires may { IsTrue (L.may (ofPeriod self.now.period)) }
        ensures queued { OnOk result (IsQueued (quest_of self.now) (AtPlace place)
            (heap_items queue.old.heap) (heap_items queue.new.heap)) }
        ensures cost { steps.new ≤ steps.old + place_reads }
    {
        let area = self.kept.tree.place_box(place, steps);
        let cell = self.kept.tree.place_cell(place, steps);
        let key = self.vantage.key(&area, &cell);
        let waiting = Waiting::Place(place);
        queue.push(Element { key, waiting })?;
        Ok(())
    }

    /// Puts what a node holds among what waits: the children of a branch, or the places of a bucket.
    pub(crate) fn open<L: Reads>(
        &self,
        node: NodeRef,
        queue: &mut Queue,
        steps: &mut Steps<L>,
    ) -> Result<(), Memory>
        requires search { IsSearch self.now }
        requires node { IsNodeOf self.now.kept.now.tree node }
        requires may { IsTrue (L.may (ofPeriod self.now.period)) }
        ensures opened { OnOk result (OpensWaiting (quest_of self.now) (AtNode node)
            (heap_items queue.old.heap) (heap_items queue.new.heap)) }
        ensures paid { OnOk result (IsPaid (quest_of self.now) (AtNode node)
            (heap_items queue.old.heap) (heap_items queue.new.heap) steps.old steps.new) }
        ensures cost { (test : Node → Bool) → test (square_in (quest_of self.now) (AtNode node)) ≡ true
            → steps.new ≤ steps.old + worth_left (quest_of self.now) test (AtNode node) }
    {
        match self.kept.tree.kind(&node, steps) {
            NodeKind::Bucket { low, high } => {
                self.queue_places(low, high, queue, steps)?;
                Ok(())
            }
            NodeKind::Branch { end, mask } => {
                let mut children = ArrayVec::new();
                self.kept
                    .tree
                    .push_children(&node, end, mask, &mut children);
                self.queue_nodes(&mut children, queue, steps)?;
                Ok(())
            }
        }
    }

    /// How near the object of the block at a place is, if it is present at the instant.
    pub(crate) fn near<L: Reads>(&self, place: u32, steps: &mut Steps<L>) -> Option<Near>
        requires search { IsSearch self.now }
        requires place { place < length self.now.kept.now.tree.places.codes }
        requires may { IsTrue (L.may (ofPeriod self.now.period)) }
        requires logs { ReadsWithin (period_near_needs self.now.stores.now self.now.period
            self.now.instant) L.may }
        ensures value { result ≡ near_at (quest_of self.now) place }
        ensures cost { steps.new ≤ steps.old + seek_reads_at (quest_of self.now) place }
    {
        let block = self.kept.block(place, steps);
        let found = self.cell_of(&block, steps)?;
        Some(Near {
            object: self.stores.object_at(block.index),
            cell: found,
            dist2: dist2(self.vantage.cell, found),
        })
    }

    // The cell of a block's object at the instant, by the block's log.
    fn cell_of<L: Reads>(&self, block: &Anchored, steps: &mut Steps<L>) -> Option<Cell>
        requires search { IsSearch self.now }
        requires block { IsBlock (snapshot_in self.now.stores.now self.now.period) block.now }
        requires logs { ReadsWithin (period_near_needs self.now.stores.now self.now.period
            self.now.instant) L.may }
        ensures value { result ≡ cell_among
            (stops_of self.now.stores.now self.now.period block.now) self.now.instant }
        ensures within { IfSome result (λ cell. IsCellWithin cell) }
        ensures cost { steps.new ≤ steps.old + seek_cost self.now.stores.now (Some block.now) }
    {
        let placed = Placed::new(self.stores, self.period, block);
        seek(placed.log, placed.start, self.instant, steps)
    }
}
