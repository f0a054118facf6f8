ghost use Rattle.std.specs.Prelude.{◌≡◌, ◌<◌};

use crate::words::numbers_of;
use object_perm::{Perm, PermFault};
use std::alloc::Global;
use std::marker::Brand;
use std::sync::ledger::{Blank, Ledger};
use std::test::Fail;
use step_count::Steps;
use track_types::{List32, Memory};

// A list of fewer than a million values as a permutation.
fn checked(alloc: Global, values: &[u32]) -> Result<Perm, PermFault> {
    if values.len() > 1_000_000 {
        return Err(PermFault::Memory);
    }
    let list = values.to_vec(alloc).map_err(Memory::from)?;
    Perm::check(alloc, List32::new(list))
}

// Lists, and the place of the first flaw of each, if it has one.
const LISTS: [(&str, &str, Option<u32>); 5] = [
    ("a cycle", "2 0 1", None),
    ("no value", "", None),
    ("a value that stood before", "0 0", Some(1)),
    ("a value that is not below the length", "0 2", Some(1)),
    ("the earlier of two flaws", "1 7 1", Some(1)),
];

// Whether a list has this flaw.
fn has_flaw(alloc: Global, words: &str, want: Option<u32>) -> Result<bool, PermFault> {
    let values = numbers_of(alloc, words)?;
    match checked(alloc, values.as_slice()) {
        Ok(_perm) => Ok(want.is_none()),
        Err(PermFault::Flaw { index }) => Ok(want == Some(index)),
        Err(PermFault::Memory) => Err(PermFault::Memory),
    }
}

#[test]
fn a_flawed_list_is_refused_at_its_first_flaw(rt: HostRuntime) -> Result<(), Fail> {
    for (what, words, want) in LISTS {
        assert!(rt; has_flaw(rt.alloc(), words, want)?, "{what}");
    }
    Ok(())
}

// Whether a place has a value, which is found there.
fn is_at<L: Ledger>(perm: &Perm, place: u32, value: u32, steps: &mut Steps<L>) -> bool {
    if place >= perm.len() || value >= perm.len() {
        return false;
    }
    perm.at(place, steps) == value && perm.inverse(value, steps) == place
}

// Whether each place is read, and each value's place is found, on a counter of its own.
fn reads_both_ways<L: Ledger>(host: &HostRuntime, perm: &Perm, values: &[u32], blank: Blank) -> bool
    requires name { blank.name ≡ L.name }
    requires parts { blank.parts ≡ L.parts }
    requires some { 0 < L.parts }
{
    let mut steps = Steps::<L>::new(host, blank);
    let mut place = 0u32;
    for value in values {
        if !is_at(perm, place, *value, &mut steps) {
            return false;
        }
        place = place.wrapping_add(1);
    }
    perm.len() == place
}

// Whether a permutation is read both ways.
fn are_read(host: &HostRuntime, values: &[u32]) -> Result<bool, PermFault> {
    let perm = checked(host.alloc(), values)?;
    Ok(reads_both_ways::<Brand>(host, &perm, values, Blank::new(1)))
}

#[test]
fn few_places_are_read_both_ways(rt: HostRuntime) -> Result<(), Fail> {
    for words in ["", "0", "2 0 1", "3 1 0 2"] {
        let values = numbers_of(rt.alloc(), words)?;
        assert!(rt; are_read(&rt, values.as_slice())?, "{words}");
    }
    Ok(())
}

// Seven places on, in one cycle.
fn one_cycle(alloc: Global) -> Result<Vec<u32>, Memory> {
    Ok((0..100_000u32).map(|i| (i + 7) % 100_000).collect(alloc)?)
}

// With neighbours exchanged.
fn pairs(alloc: Global) -> Result<Vec<u32>, Memory> {
    Ok((0..100_000u32).map(|i| i ^ 1).collect(alloc)?)
}

#[test]
fn a_hundred_thousand_places_are_read_both_ways(rt: HostRuntime) -> Result<(), Fail> {
    let cycle = one_cycle(rt.alloc())?;
    assert!(rt; are_read(&rt, cycle.as_slice())?, "one cycle");
    let pairs = pairs(rt.alloc())?;
    assert!(rt; are_read(&rt, pairs.as_slice())?, "pairs");
    Ok(())
}
