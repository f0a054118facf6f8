ghost use Rattle.std.specs.Prelude.{◌≡◌, ◌+◌, ◌≤◌, ◌<◌, ℤ, length, if◌then◌else◌};
ghost use Rattle.step_count.specs.Reads.{ofRule, ReadsWithin};
ghost use Rattle.std.specs.Option.{option_map};
ghost use Rattle.track_types.specs.declared.region.Region.{Region};
ghost use Rattle.rule_store.specs.Log.{log_of};
ghost use Rattle.rule_store.specs.Needs.{places_of};
ghost use Rattle.rule_store.specs.View.{RulesView};
ghost use Rattle.log_cursor.specs.Descent.{
  end_stage,
  first_needed,
  first_reads,
  hit_of,
  next_rule,
  parted_of,
  reads_of,
  rest_of,
  rules_of,
  turning_of,
  weight_of,
  IsDescent,
};
ghost use Rattle.log_cursor.specs.Needs.{symbol_needs, RulesWithin};
ghost use Rattle.log_cursor.specs.Start.{IsPlaced};
ghost use Rattle.log_cursor.specs.Touching.{first_hit_of, touching_count, touching_rule};

use crate::searching::{anchor_hit, touches};
use crate::start::Start;
use region_test::RegionTest;
use rule_store::{LogView, RuleStore};
use step_count::{Reads, Steps};
use track_types::Cell;

/// How far a search at one instant has come.
#[derive(Clone, Copy)]
pub enum Stage {
    /// This symbol has the instant.
    Within(u32),
    /// This symbol has it, and is a rule that touches the region.
    Touching(u32),
    /// One of the two parts of a rule has it.
    Parted(u32, u32),
    /// The object is there.
    Found,
    /// It is not in the region.
    Missed,
}

/// A search for the stop of a block at one instant, which goes down from one rule to the part of it
/// that has the instant. It needs no stack.
#[derive(Clone, Copy)]
pub struct Descent {
    // Where the symbol or the first part begins, or where the object is.
    at: Start,
    stage: Stage,
}

impl Descent {
    /// The first symbol of a block's log, if a search at the instant begins with it: the instant is
    /// after the anchor's. It is read, and its entry is not looked at. So whoever begins many searches
    /// may have the first symbols of all their logs on the way from memory at once.
    pub fn first_symbol<L: Reads>(
        view: LogView<'_>,
        start: Start,
        instant: i64,
        steps: &mut Steps<L>,
    ) -> Option<u32>
        requires may { ReadsWithin (symbol_needs (places_of view)) L.may }
        ensures value { result ≡ first_needed (log_of view.entry) start instant }
        ensures cost { steps.new ≡ steps.old + first_reads result }
    {
        if instant <= start.instant || view.len() == 0 {
            return None;
        }
        Some(view.entry(0, steps).symbol)
    }

    /// The search in the symbol of a block's log that has the instant. Its first symbol was read
    /// before, if it is needed (`first_symbol`). It reads the symbols after it up to the one that has
    /// the instant.
    pub fn begin<L: Reads>(
        view: LogView<'_>,
        start: Start,
        first: Option<u32>,
        instant: i64,
        test: &RegionTest,
        steps: &mut Steps<L>,
    ) -> Descent
        requires placed { IsPlaced view.rules.now start (log_of view) }
        requires first { first ≡ first_needed (log_of view) start instant }
        requires may { ReadsWithin (symbol_needs (places_of view)) L.may }
        ensures sound { IsDescent view.entry.rules.now instant result }
        ensures hit { hit_of view.entry.rules.now instant test.now.region result
            ≡ first_hit_of view.entry.rules.now (log_of view.entry) start instant instant
            test.now.region }
        ensures cost { steps.new + (first_reads first + reads_of view.entry.rules.now instant
            test.now.region result) ≤ steps.old + (length (log_of view.entry) + touching_count
            view.entry.rules.now start (log_of view.entry) instant instant test.now.region) }
        ensures opens { RulesWithin (rules_of view.entry.rules.now instant test.now.region result)
            (touching_rule view.entry.rules.now start (log_of view.entry) instant instant
            test.now.region) }
    {
        let Some(first) = first else {
            let anchor = anchor_hit(start, instant, instant, test);
            return Descent::over(start, anchor.is_some());
        };
        let rules = view.rules();
        let _ = rules.sizes(); // tells what holds of all rules, which bounds the instants
        let entry = rules.entry(first);
        let mut at = start.after(&entry);
        if instant <= at.instant {
            return Descent {
                at: start,
                stage: Stage::Within(entry.symbol),
            };
        }
        for i in 1..view.len() {
            let entry = view.entry(i, steps);
            let next = at.after(&entry);
            if instant <= next.instant {
                return Descent {
                    at,
                    stage: Stage::Within(entry.symbol),
                };
            }
            at = next;
        }
        Descent::over(at, false)
    }

    // The end of a search, where the object is or was passed.
    fn over(at: Start, is_there: bool) -> Descent
        ensures at { result.at ≡ at }
        ensures stage { result.stage ≡ end_stage is_there }
    {
        let stage = if is_there {
            Stage::Found
        } else {
            Stage::Missed
        };
        Descent { at, stage }
    }

    /// The search after the box of its symbol was asked: it is over, or at a rule that touches the
    /// region.
    pub fn judged(self, rules: &RuleStore, instant: i64, test: &RegionTest) -> Descent
        requires { IsDescent rules.now instant self }
        ensures sound { IsDescent rules.now instant result }
        ensures hit { hit_of rules.now instant test.now.region result
            ≡ hit_of rules.now instant test.now.region self }
        ensures turn { turning_of result ≡ rest_of result }
        ensures weight { weight_of result ≤ weight_of self }
        ensures cost { reads_of rules.now instant test.now.region result
            ≤ reads_of rules.now instant test.now.region self }
        ensures opens { RulesWithin (rules_of rules.now instant test.now.region result)
            (rules_of rules.now instant test.now.region self) }
    {
        let Stage::Within(symbol) = self.stage else {
            return self;
        };
        let entry = rules.entry(symbol);
        if !touches(self.at.cell, entry.hull, test) {
            return Descent::over(self.at, false);
        }
        if !rules.is_rule(symbol) {
            return Descent::over(self.at.after(&entry), true);
        }
        Descent {
            at: self.at,
            stage: Stage::Touching(symbol),
        }
    }

    /// The search after the rule that touches the region was opened.
    pub fn opened<L: Reads>(self, rules: &RuleStore, instant: i64, steps: &mut Steps<L>) -> Descent
        requires sound { IsDescent rules.now instant self }
        requires may { RulesWithin (next_rule self) (λ rule. L.may (ofRule rule)) }
        ensures sound { IsDescent rules.now instant result }
        ensures hit { (region : Region) → hit_of rules.now instant region result
            ≡ hit_of rules.now instant region self }
        ensures turn { turning_of result ≡ turning_of self }
        ensures opened { parted_of result ≡ turning_of result }
        ensures weight { weight_of result ≤ weight_of self }
        ensures cost { (region : Region) → steps.new + reads_of rules.now instant region result
            ≤ steps.old + reads_of rules.now instant region self }
        ensures opens { (region : Region) → RulesWithin (rules_of rules.now instant region result)
            (rules_of rules.now instant region self) }
    {
        let Stage::Touching(rule) = self.stage else {
            return self;
        };
        let (left, right) = rules.parts(rule, steps);
        Descent {
            at: self.at,
            stage: Stage::Parted(left.symbol, right.symbol),
        }
    }

    /// The search in the part that has the instant.
    pub fn turned(self, rules: &RuleStore, instant: i64) -> Descent
        requires { IsDescent rules.now instant self }
        ensures sound { IsDescent rules.now instant result }
        ensures hit { (region : Region) → hit_of rules.now instant region result
            ≡ hit_of rules.now instant region self }
        ensures turn { parted_of result ≡ 0 }
        ensures weight { weight_of result + parted_of self ≤ weight_of self }
        ensures cost { (region : Region) → reads_of rules.now instant region result
            ≤ reads_of rules.now instant region self }
        ensures opens { (region : Region) → RulesWithin (rules_of rules.now instant region result)
            (rules_of rules.now instant region self) }
    {
        let Stage::Parted(left, right) = self.stage else {
            return self;
        };
        let middle = self.at.after(&rules.entry(left));
        let is_left = instant <= middle.instant;
        Descent {
            at: pick_start(is_left, self.at, middle),
            stage: Stage::Within(pick(is_left, left, right)),
        }
    }

    /// Whether it is over.
    pub fn is_over(self) -> bool
        ensures { rest_of self ≡ (if result then 0 else 1) }
    {
        match self.stage {
            Stage::Found | Stage::Missed => true,
            Stage::Within(_) | Stage::Touching(_) | Stage::Parted(_, _) => false,
        }
    }

    /// The cell that was found.
    pub fn found(self) -> Option<Cell>
        ensures { (rules : RulesView) (instant : ℤ) (region : Region) → rest_of self ≡ 0
            → result ≡ option_map (λ stop. stop.cell) (hit_of rules instant region self) }
    {
        match self.stage {
            Stage::Found => Some(self.at.cell),
            _ => None,
        }
    }
}

// One of two values. Which part of a rule has an instant is as good as random, so a branch would
// often be guessed wrong: this is made to become a select.
fn pick<T: Copy>(is_first: bool, first: T, second: T) -> T
    ensures { result ≡ (if is_first then first else second) }
{
    if is_first { first } else { second }
}

// The same of two starts, number by number.
fn pick_start(is_first: bool, first: Start, second: Start) -> Start
    ensures { result ≡ (if is_first then first else second) }
{
    Start {
        instant: pick(is_first, first.instant, second.instant),
        cell: Cell {
            x: pick(is_first, first.cell.x, second.cell.x),
            y: pick(is_first, first.cell.y, second.cell.y),
        },
    }
}

impl Default for Descent {
    /// A search that has found nothing.
    fn default() -> Descent {
        let at = Start {
            instant: 0,
            cell: Cell { x: 0, y: 0 },
        };
        Descent::over(at, false)
    }
}
