use crate::charts::{Place, chart_of};
use chart_parts::parts_of;
use std::alloc::Global;
use std::test::Fail;
use track_types::{BitList, Cell, Frame, List32, MAX_VERSION, Memory, Parts, PeriodParts};

// What a period's parts are expected to be; bits as digits 0 and 1.
#[derive(Drop)]
struct Expected<'a> {
    present: &'a [u32],
    offsets: &'a [u32],
    tree: &'a [u32],
    lasts: &'a [u32],
    perm: &'a [u32],
    lengths: &'a [u32],
}

fn has_bits(list: &BitList, digits: &[u32]) -> bool {
    if list.len() as usize != digits.len() {
        return false;
    }
    for place in 0..list.len() {
        let digit = u32::from(list.get(place));
        if digits.get(place as usize) != Some(&digit) {
            return false;
        }
    }
    true
}

fn has_numbers(list: &List32, numbers: &[u32]) -> bool {
    list.as_slice() == numbers
}

fn is_period(parts: &PeriodParts, expected: &Expected) -> bool {
    has_bits(&parts.present, expected.present)
        && has_numbers(&parts.offsets, expected.offsets)
        && has_bits(&parts.tree, expected.tree)
        && has_bits(&parts.lasts, expected.lasts)
        && has_numbers(&parts.perm, expected.perm)
        && has_numbers(&parts.lengths, expected.lengths)
}

fn are_periods(parts: &Parts, expected: &[Expected]) -> bool {
    let periods = parts.periods.as_slice();
    if periods.len() != expected.len() {
        return false;
    }
    for (period, expected) in periods.iter().zip(expected.iter()) {
        if !is_period(period, expected) {
            return false;
        }
    }
    true
}

// The header of a chart of cells and instants of one unit, from instant 0 on.
fn frame(span: u32, period: u32, height: u32, x: i64, y: i64) -> Frame {
    Frame {
        version: MAX_VERSION,
        first: 0,
        span,
        period,
        height,
        base: Cell { x, y },
        cell: 1,
        tick: 1,
    }
}

const NONE: [u32; 0] = [];

fn is_path(parts: &Parts) -> bool {
    let whole = Expected {
        present: &[1],
        offsets: &[0],
        tree: &[1, 0, 0, 0, 1, 0, 0, 0],
        lasts: &[1],
        perm: &[0],
        lengths: &[2],
    };
    parts.frame == frame(3, 4, 2, 10, 10)
        && has_numbers(&parts.objects, &[7])
        && parts.alphabet.as_slice() == [2, 3].as_slice()
        && parts.rules.as_slice().is_empty()
        && has_numbers(&parts.symbols, &[0, 1])
        && are_periods(parts, &[whole])
}

// Four periods: with three objects, two of them in one cell; with none; with one that is absent once; with another.
fn is_sparse(parts: &Parts) -> bool {
    let shared = Expected {
        present: &[1, 1, 1],
        offsets: &[0, 0, 1],
        tree: &[1, 1, 0, 0, 1, 0, 0, 0, 0, 0, 1, 0],
        lasts: &[0, 1, 1],
        perm: &[1, 2, 0],
        lengths: &[1, 1, 0],
    };
    let empty = Expected {
        present: &[0, 0, 0],
        offsets: &NONE,
        tree: &NONE,
        lasts: &NONE,
        perm: &NONE,
        lengths: &NONE,
    };
    let second = Expected {
        present: &[0, 1, 0],
        offsets: &[0],
        tree: &[1, 0, 0, 0, 1, 0, 0, 0],
        lasts: &[1],
        perm: &[0],
        lengths: &[1],
    };
    let third = Expected {
        present: &[0, 0, 1],
        offsets: &[0],
        tree: &[1, 0, 0, 0, 0, 0, 0, 1],
        lasts: &[1],
        perm: &[0],
        lengths: &[0],
    };
    parts.frame == frame(7, 2, 2, -2, -1)
        && has_numbers(&parts.objects, &[3, 5, 9])
        && parts.alphabet.as_slice() == [0].as_slice()
        && parts.rules.as_slice().is_empty()
        && has_numbers(&parts.symbols, &[0, 0, 0])
        && are_periods(parts, &[shared, empty, second, third])
}

// Two objects at the corners of a grid of side 16: one level of sixteen, and two of four.
fn is_wide(parts: &Parts) -> bool {
    let whole = Expected {
        present: &[1, 1],
        offsets: &[0, 0],
        tree: &[
            1, 0, 0, 0, 0, 0, 0, 0, 0, 0, 0, 0, 0, 0, 0, 1, 1, 0, 0, 0, 0, 0, 0, 1, 1, 0, 0, 0, 0,
            0, 0, 1,
        ],
        lasts: &[1, 1],
        perm: &[0, 1],
        lengths: &[0, 0],
    };
    parts.frame == frame(1, 4, 4, 0, 0)
        && has_numbers(&parts.objects, &[1, 2])
        && parts.alphabet.as_slice().is_empty()
        && parts.rules.as_slice().is_empty()
        && has_numbers(&parts.symbols, &NONE)
        && are_periods(parts, &[whole])
}

const PATH: [Place; 3] = [(7, 0, 10, 10), (7, 1, 11, 10), (7, 2, 12, 11)];

const SPARSE: [Place; 5] = [
    (3, 0, 0, 0),
    (5, 0, -2, -1),
    (5, 4, -2, -1),
    (9, 1, -2, -1),
    (9, 6, -1, 0),
];

const WIDE: [Place; 2] = [(1, 0, 0, 0), (2, 0, 15, 15)];

// The parts that a chart is written as.
fn written(alloc: Global, places: &[Place], period: u32) -> Result<Parts, Memory> {
    let Ok(chart) = chart_of(alloc, places, period) else {
        return Err(Memory);
    };
    parts_of(alloc, &chart)
}

#[test]
fn charts_are_written_as_parts(rt: HostRuntime) -> Result<(), Fail> {
    assert!(rt; is_path(&written(rt.alloc(), &PATH, 4)?), "a path");
    assert!(rt;
        is_sparse(&written(rt.alloc(), &SPARSE, 2)?),
        "three objects"
    );
    assert!(rt; is_wide(&written(rt.alloc(), &WIDE, 4)?), "a wide grid");
    Ok(())
}
