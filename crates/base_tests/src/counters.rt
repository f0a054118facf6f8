ghost use Rattle.std.specs.Prelude.{◌≡◌, ◌<◌, ◌+◌, length};

use std::marker::Brand;
use std::mem::size_of;
use std::sync::ledger::{Blank, Ledger};
use std::test::Fail;
use step_count::{CountedList, Steps};

fn read_twice<L: Ledger>(steps: &mut Steps<L>)
    ensures { steps.new ≡ steps.old + 2 }
{
    steps.tick();
    steps.tick();
}

fn counted<L: Ledger>(rt: &HostRuntime, blank: Blank)
    requires name { blank.name ≡ L.name }
    requires parts { blank.parts ≡ L.parts }
    requires some { 0 < L.parts }
{
    let mut steps = Steps::<L>::new(rt, blank);
    read_twice(&mut steps);
}

#[test]
fn a_counter_takes_no_bytes(rt: HostRuntime) -> Result<(), Fail> {
    counted::<Brand>(&rt, Blank::new(1));
    assert!(rt; size_of::<Steps<Brand>>() == 0);
    Ok(())
}

// Two numbers and a pair, by three steps that contracts see.
type Read = (u32, u32, (u32, u32));

fn read_three<L: Ledger>(
    rt: &HostRuntime,
    numbers: &CountedList<u32>,
    pairs: &CountedList<(u32, u32)>,
    blank: Blank,
) -> Read
    requires name { blank.name ≡ L.name }
    requires parts { blank.parts ≡ L.parts }
    requires some { 0 < L.parts }
    requires numbers { length numbers.now ≡ 2 }
    requires pairs { length pairs.now ≡ 1 }
{
    let mut steps = Steps::<L>::new(rt, blank);
    let first = numbers.at(0, &mut steps);
    let second = numbers.at(1, &mut steps);
    (first, second, pairs.at(0, &mut steps))
}

#[test]
fn a_counted_list_gives_its_items_one_read_each(rt: HostRuntime) -> Result<(), Fail> {
    let numbers = CountedList::new(vec![in rt.alloc(); 7, 9]?);
    let pairs = CountedList::new(vec![in rt.alloc(); (3, 4)]?);
    let read = read_three::<Brand>(&rt, &numbers, &pairs, Blank::new(1));
    assert!(rt; numbers.len() == 2 && read == (7, 9, (3, 4)), "one by one");
    assert!(rt; numbers.into_vec().as_slice() == [7, 9].as_slice(), "all");
    Ok(())
}
