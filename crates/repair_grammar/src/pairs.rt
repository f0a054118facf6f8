ghost use Rattle.std.specs.Prelude.{◌≡◌, ℕ, ◌+◌, ◌^◌, ◌<◌, ◌≤◌, cond, length, IfOk, OnOk, [], ◌∷◌, ◌++◌};
ghost use Rattle.std.specs.Prelude.{if◌then◌else◌};
ghost use Rattle.std.specs.List.{Contains};
ghost use Rattle.std.specs.List.Sorted.{IsNonDecreasing, IsPermutation};
ghost use Rattle.repair_grammar.specs.RePair.{is_pair};
ghost use Rattle.repair_grammar.specs.Pairs.{count_in_table, places_in_table};
ghost use Rattle.repair_grammar.specs.Pairs.{count_of, places_of, HasCome};

use smallvec::SmallVec;
use std::alloc::Global;
use std::collections::HashMap;
use track_types::Memory;

// How many places of a pair are kept in its entry itself. Most pairs have no more, so they need no
// memory of their own.
const INLINE: usize = 4;

/// How often a pair counts, and the places at which its left symbol was seen. It may have gone from
/// some of them.
#[derive(Drop)]
pub struct Seen {
    pub count: u32,
    pub places: SmallVec<u32, INLINE>,
}

/// What is known of each pair that counts.
pub type Table = HashMap<(u32, u32), Seen>;

/// The pairs that count.
#[derive(Drop)]
pub struct Pairs {
    pub table: Table,
    /// The pairs that have come to count since keys were last made.
    pub fresh: Vec<(u32, u32)>,
}

impl Pairs {
    /// No pairs.
    pub fn new(alloc: Global) -> Pairs
        ensures { (pair : ℕ × ℕ) → count_of result pair ≡ 0 }
    {
        Pairs {
            table: HashMap::new(alloc),
            fresh: Vec::new(alloc),
        }
    }

    /// How often a pair counts.
    pub fn count(&self, pair: (u32, u32)) -> u32
        ensures { result ≡ count_of self.now pair }
    {
        match self.table.get(&pair) {
            None => 0,
            Some(seen) => seen.count,
        }
    }

    /// Writes the places of a pair on a list, in order and each as often as it was noted.
    pub fn copy_places(&self, pair: (u32, u32), places: &mut Vec<u32>) -> Result<(), Memory>
        ensures order { OnOk result (IsNonDecreasing places.new.items) }
        ensures all { OnOk result ((place : ℕ) →
            Contains (places_of self.now pair) place → Contains places.new.items place) }
        ensures same { OnOk result (IsPermutation (places_of self.now pair) places.new.items) }
    {
        copy_seen(&self.table, pair, places)?;
        put_in_order(places);
        Ok(())
    }

    /// Notes a place of a pair, and counts the pair once more if this place counts.
    pub fn note(
        &mut self,
        alloc: Global,
        pair: (u32, u32),
        place: u32,
        counts: bool,
    ) -> Result<(), Memory>
        requires room { count_of self.old pair + 1 < 2 ^ 32 }
        ensures counts { OnOk result ((other : ℕ × ℕ) → count_of self.new other
            ≡ count_of self.old other + cond (is_pair other pair.0 pair.1) (cond counts 1 0) 0) }
        ensures places { OnOk result ((other : ℕ × ℕ) → places_of self.new other
            ≡ (if is_pair other pair.0 pair.1 then places_of self.old other ++ place ∷ []
            else places_of self.old other)) }
        ensures come { OnOk result (HasCome self.old self.new) }
    {
        let count = note_in(alloc, &mut self.table, pair, place, one_if(counts))?;
        add_fresh(&mut self.fresh, pair, count)?;
        Ok(())
    }

    /// Counts a pair once less. One that no longer counts is forgotten, with its places.
    pub fn lower(&mut self, pair: (u32, u32))
        requires some { 0 < count_of self.old pair }
        ensures counts { (other : ℕ × ℕ) → count_of self.new other
            + cond (is_pair other pair.0 pair.1) 1 0 ≡ count_of self.old other }
        ensures places { (other : ℕ × ℕ) → 0 < count_of self.new other →
            places_of self.new other ≡ places_of self.old other }
        ensures few { (other : ℕ × ℕ) →
            length (places_of self.new other) ≤ length (places_of self.old other) }
        ensures fresh { self.new.fresh ≡ self.old.fresh }
    {
        if lower_in(&mut self.table, pair) == 0 {
            self.table.remove(&pair);
        }
    }
}

// Writes the places that a table has for a pair on a list.
fn copy_seen(table: &Table, pair: (u32, u32), places: &mut Vec<u32>) -> Result<(), Memory>
    ensures ok { OnOk result (places.new.items ≡ places_in_table table.now pair) }
{
    places.clear();
    if let Some(seen) = table.get(&pair) {
        places.extend_from_slice(seen.places.as_slice())?;
    }
    Ok(())
}

// Puts places in order. Nearly always they are, since a round notes its new pairs from left to
// right.
fn put_in_order(places: &mut Vec<u32>)
    ensures order { IsNonDecreasing places.new.items }
    ensures all { (place : ℕ) → Contains places.old.items place → Contains places.new.items place }
    ensures same { IsPermutation places.old.items places.new.items }
{
    if !places.as_slice().is_sorted() {
        places.sort_unstable();
    }
}

// 1 where a test holds.
fn one_if(test: bool) -> u32
    ensures { result ≡ cond test 1 0 }
{
    if test { 1 } else { 0 }
}

// Notes a pair that has come to count.
fn add_fresh(fresh: &mut Vec<(u32, u32)>, pair: (u32, u32), count: u32) -> Result<(), Memory>
    ensures kept { OnOk result ((other : ℕ × ℕ) →
        Contains fresh.old.items other → Contains fresh.new.items other) }
    ensures added { OnOk result (count ≡ 1 → Contains fresh.new.items pair) }
{
    if count == 1 {
        fresh.push(pair)?;
    }
    Ok(())
}

// Notes a place of a pair, and counts it so many times more. It gives the count.
fn note_in(
    alloc: Global,
    table: &mut Table,
    pair: (u32, u32),
    place: u32,
    more: u32,
) -> Result<u32, Memory>
    requires room { count_in_table table.old pair + more < 2 ^ 32 }
    ensures value { IfOk result (λ count. count ≡ count_in_table table.old pair + more) }
    ensures counts { OnOk result ((other : ℕ × ℕ) → count_in_table table.new other
        ≡ count_in_table table.old other + cond (is_pair other pair.0 pair.1) more 0) }
    ensures places { OnOk result ((other : ℕ × ℕ) → places_in_table table.new other
        ≡ (if is_pair other pair.0 pair.1 then places_in_table table.old other ++ place ∷ []
        else places_in_table table.old other)) }
{
    match table.get_mut(&pair) {
        Some(seen) => {
            seen.count += more;
            seen.places.push(place)?;
            Ok(seen.count)
        }
        None => {
            let mut places = SmallVec::new(alloc);
            places.push(place)?;
            table.insert(
                pair,
                Seen {
                    count: more,
                    places,
                },
            )?;
            Ok(more)
        }
    }
}

// Counts a pair once less, and gives its count.
fn lower_in(table: &mut Table, pair: (u32, u32)) -> u32
    requires some { 0 < count_in_table table.old pair }
    ensures value { result + 1 ≡ count_in_table table.old pair }
    ensures counts { (other : ℕ × ℕ) → count_in_table table.new other
        + cond (is_pair other pair.0 pair.1) 1 0 ≡ count_in_table table.old other }
    ensures places { (other : ℕ × ℕ) →
        places_in_table table.new other ≡ places_in_table table.old other }
{
    match table.get_mut(&pair) {
        None => 0,
        Some(seen) => {
            seen.count -= 1;
            seen.count
        }
    }
}
