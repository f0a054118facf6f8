ghost use Rattle.std.specs.Prelude.{◌≡◌, ◌<◌, false, IfOk, [], ◌∷◌, length};
ghost use Rattle.step_count.specs.Reads.{ReadsWithin};

use std::alloc::{AllocError, Global};
use std::marker::Brand;
use std::sync::ledger::Blank;
use std::test::Fail;
use step_count::{Reads, Steps};
use track_types::{Lazy, drawn};

// The numbers of a list from a place on, with one read for each.
#[derive(Drop)]
struct Numbers<'a> {
    rest: &'a [u32],
}

impl<'a> Lazy for Numbers<'a> {
    type Item = u32;

    ghost left = { λ s. s.rest.now };

    ghost budget = { λ s. length s.rest.now };

    ghost needs = { λ _ _. false };

    fn draw<L: Reads>(&mut self, steps: &mut Steps<L>) -> Option<u32> {
        let (first, rest) = self.rest.split_first()?;
        steps.tick();
        self.rest = rest;
        Some(*first)
    }
}

// The items of any walk, in order.
fn all_drawn<W: Lazy, L: Reads>(
    alloc: Global,
    walk: &mut W,
    steps: &mut Steps<L>,
) -> Result<Vec<W::Item>, AllocError>
where
    W::Item: Drop,
    requires may { ReadsWithin (W.needs walk.old) L.may }
    ensures { IfOk result (λ items. items.items ≡ W.left walk.old) }
{
    drawn(walk, steps).collect(alloc)
}

// All but the first of these numbers, and what comes after the last.
fn numbers_drawn<L: Reads>(
    rt: &HostRuntime,
    blank: Blank,
) -> Result<(Vec<u32>, Option<u32>), AllocError>
    requires name { blank.name ≡ L.name }
    requires parts { blank.parts ≡ L.parts }
    requires some { 0 < L.parts }
    ensures { IfOk result (λ found. found.0.items ≡ 9 ∷ 0 ∷ 8 ∷ []) }
{
    let mut steps = Steps::<L>::new(rt, blank);
    let mut walk = Numbers {
        rest: &[7, 9, 0, 8],
    };
    let _first = walk.draw(&mut steps);
    let found = all_drawn(rt.alloc(), &mut walk, &mut steps)?;
    Ok((found, walk.draw(&mut steps)))
}

#[test]
fn drawn_gives_what_is_left_and_ends(rt: HostRuntime) -> Result<(), Fail> {
    let (found, behind) = numbers_drawn::<Brand>(&rt, Blank::new(1))?;
    assert!(rt; found.as_slice() == [9, 0, 8].as_slice(), "what is left");
    assert!(rt; behind.is_none(), "the end");
    Ok(())
}
