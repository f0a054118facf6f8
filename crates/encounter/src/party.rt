ghost use Rattle.std.specs.Prelude.{◌≡◌, ℕ, ◌+◌, ◌≤◌, [], length, true, false, option_map};
ghost use Rattle.std.specs.Prelude.{IfOk, IfSome, IsTrue};
ghost use Rattle.std.specs.Str.{bytes_eq};
ghost use Rattle.step_count.specs.Reads.{ofRule, ReadsWithin};
ghost use Rattle.track_types.specs.Near.{IsBoxWithin, IsCellAsked};
ghost use Rattle.rule_store.specs.Cost.{parts_reads};
ghost use Rattle.rule_store.specs.Expansion.{expansion_of};
ghost use Rattle.rule_store.specs.Log.{log_of};
ghost use Rattle.rule_store.specs.Needs.{places_of};
ghost use Rattle.log_cursor.specs.Needs.{symbol_needs};
ghost use Rattle.log_cursor.specs.Start.{IsHullAsked, IsPlaced, IsStart};
ghost use Rattle.track_types.specs.Boxes.{moved_box};
ghost use Rattle.encounter.specs.Span.{log_tree};
ghost use Rattle.encounter.specs.Party.{OpensNode, IsPassed, Tells, remaining, past_of};

use crate::block_node::BlockNode;
use log_cursor::{Pending, Start, placed};
use rule_store::{Entry, LogView};
use std::alloc::Global;
use std::marker::Model;
use step_count::{Reads, Steps};
use track_types::{Cell, CellBox, Memory};

/// One of two blocks that are gone through together: its next node, and what comes after it.
///
/// The anchor is its first node. A node is passed, or it is a rule that is opened: then its left part
/// is the next node.
#[derive(Drop)]
pub struct Party<'a> {
    // The symbols after the next node.
    pending: Pending<'a>,
    // Where the next node begins.
    at: Start,
    // The next node: its entry, or none for the anchor.
    top: Option<Entry>,
}

impl<'a> Model for Party<'a> {
    ghost use Rattle.encounter.specs.Party.{IsParty, PartyView, party_of};

    ghost Value = { PartyView };

    ghost view = { λ s. party_of s.pending s.at s.top };

    ghost invariant = { λ s. IsParty s.pending s.at s.top };
}

impl<'a> Party<'a> {
    /// A block from its anchor on. It takes memory for the parts of the deepest rule, and reads
    /// nothing.
    pub fn new(alloc: Global, view: LogView<'a>, start: Start) -> Result<Party<'a>, Memory>
        requires { IsPlaced view.rules.now start (log_of view) }
        ensures rest { IfOk result (λ party.
            remaining party ≡ log_tree view.entry.rules.now start (log_of view.entry)) }
        ensures rules { IfOk result (λ party. party.rules ≡ view.entry.rules.now) }
        ensures places { IfOk result (λ party. party.places ≡ places_of view.entry) }
        ensures unread { IfOk result (λ party. party.unread ≡ length (log_of view.entry)) }
    {
        let mut pending = Pending::new(alloc, view.rules())?;
        pending.begin(view);
        Ok(Party {
            pending,
            at: start,
            top: None,
        })
    }

    /// The next node.
    pub fn node(&self) -> BlockNode
        ensures begin { result.begin ≡ self.now.top.begin }
        ensures end { result.end ≡ self.now.top.end }
        ensures area { result.area ≡ self.now.top.area }
        ensures cell { result.cell ≡ self.now.cell }
        ensures opens { result.opens ≡ self.now.opens }
        ensures near { IfSome result.area IsBoxWithin }
        ensures tells { Tells self.now }
    {
        match self.top {
            None => BlockNode {
                begin: self.at.instant - 1,
                end: self.at.instant,
                cell: self.at.cell,
                area: Some(around(self.at.cell)),
                opens: false,
            },
            Some(entry) => {
                let next = self.at.after(&entry);
                BlockNode {
                    begin: self.at.instant,
                    end: next.instant,
                    cell: next.cell,
                    area: area_of(self.at.cell, entry.hull),
                    opens: self.pending.is_rule(entry.symbol),
                }
            }
        }
    }

    /// Goes to the node after the next one, and answers whether there is one. A symbol of the log is
    /// read.
    pub fn pass<L: Reads>(&mut self, steps: &mut Steps<L>) -> bool
        requires may { ReadsWithin (symbol_needs self.old.places) L.may }
        ensures more { result ≡ true → IsPassed self.old self.new }
        ensures end { result ≡ false → self.old.later.stops ≡ [] }
        ensures places { self.new.places ≡ self.old.places }
        ensures rules { self.new.rules ≡ self.old.rules }
        ensures cost { steps.new + self.new.unread ≤ steps.old + self.old.unread }
    {
        let next = past(self.at, &self.top);
        let Some(entry) = self.pending.next(steps) else {
            self.at = next;
            self.top = None;
            return false;
        };
        self.at = next;
        self.top = Some(entry);
        true
    }

    /// Opens the next node, which is a rule, by one read. Contracts name the rule by the terminals
    /// for which it stands.
    pub fn open<L: Reads>(&mut self, steps: &mut Steps<L>)
        requires rule { self.old.opens ≡ true }
        requires may { ReadsWithin (symbol_needs self.old.places) L.may }
        requires named { (rule : ℕ) → IsTrue (bytes_eq (expansion_of self.old.rules rule)
            self.old.top.inside) → IsTrue (L.may (ofRule rule)) }
        ensures opened { OpensNode self.old self.new }
        ensures places { self.new.places ≡ self.old.places }
        ensures rules { self.new.rules ≡ self.old.rules }
        ensures cost { steps.new + self.new.unread ≤ steps.old + parts_reads + self.old.unread }
    {
        let Some(entry) = self.top else {
            return;
        };
        self.pending.open(entry.symbol, steps);
        let Some(left) = self.pending.next(steps) else {
            self.top = None; // never, as a rule has two parts
            return;
        };
        self.top = Some(left);
    }
}

// Where the node after the next one begins.
fn past(at: Start, top: &Option<Entry>) -> Start
    requires { IsStart (past_of at top.now) }
    ensures { result ≡ past_of at top.now }
{
    match top {
        None => at,
        Some(entry) => at.after(entry),
    }
}

// The box of one cell.
fn around(cell: Cell) -> CellBox
    requires { IsCellAsked cell }
    ensures x1 { result.x1 ≡ cell.x }
    ensures y1 { result.y1 ≡ cell.y }
    ensures x2 { result.x2 ≡ cell.x }
    ensures y2 { result.y2 ≡ cell.y }
{
    CellBox {
        x1: cell.x,
        y1: cell.y,
        x2: cell.x,
        y2: cell.y,
    }
}

// A symbol's box, if it has one, moved to the cell where the symbol begins.
fn area_of(cell: Cell, hull: Option<CellBox>) -> Option<CellBox>
    requires { IsHullAsked cell hull }
    ensures value { result ≡ option_map (moved_box cell) hull }
    ensures within { IfSome result IsBoxWithin }
{
    match hull {
        Some(hull) => Some(placed(cell, hull)),
        None => None,
    }
}
