ghost use Rattle.std.specs.Prelude.{◌≡◌, ◌⊎◌, ◌<◌, true};
ghost use Rattle.log_cursor.specs.Opened.{Has, no_rules, rule_at};
ghost use Rattle.log_cursor.specs.declared.opened.RuleAt.{RuleAt as RuleAtView};

use std::marker::Model;
use track_types::Cell;

// How many rules are kept at most.
const PLACES: usize = 256;

/// A rule and the cell where it begins.
#[derive(Clone, Copy, PartialEq, Eq)]
pub(crate) struct RuleAt {
    rule: u32,
    cell: Cell,
}

/// Rules that a search has opened, each with the cell where it begins. Several rules share a place,
/// which keeps the last of them. It takes no memory but its own.
#[derive(Drop)]
pub(crate) struct Opened {
    places: [Option<RuleAt>; PLACES],
}

impl Model for Opened {
    ghost use Rattle.log_cursor.specs.declared.opened.RuleAt.{RuleAt as RuleAtView};
    ghost use Rattle.std.specs.Prelude.{List, Option};

    ghost Value = { List (Option RuleAtView) };

    ghost view = { λ o. o.places };
}

impl Opened {
    /// No rule.
    pub(crate) fn new() -> Opened
        ensures { result ≡ no_rules }
    {
        Opened {
            places: [None; PLACES],
        }
    }

    /// Whether a rule was opened at this cell, and is still kept.
    pub(crate) fn has(&self, rule: u32, cell: Cell) -> bool
        ensures { result ≡ true → Has self.now (rule_at rule cell) }
    {
        self.places[place_of(rule, cell)] == Some(RuleAt { rule, cell })
    }

    /// Keeps a rule that is opened at this cell.
    pub(crate) fn add(&mut self, rule: u32, cell: Cell)
        ensures { (opened : RuleAtView) → Has self.new opened
            → (opened ≡ rule_at rule cell) ⊎ Has self.old opened }
    {
        self.places[place_of(rule, cell)] = Some(RuleAt { rule, cell });
    }
}

// The place of a rule in the table.
fn place_of(rule: u32, cell: Cell) -> usize
    ensures { result < 256 }
{
    let column = cell.x.cast_unsigned().wrapping_mul(0x9E37_79B9_7F4A_7C15);
    let line = cell.y.cast_unsigned().wrapping_mul(0xC2B2_AE3D_27D4_EB4F);
    let symbol = (rule as u64).wrapping_mul(0x1656_67B1_9E37_79F9);
    ((column ^ line ^ symbol) >> 32) as usize % PLACES
}
