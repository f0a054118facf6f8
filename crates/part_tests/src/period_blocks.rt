ghost use Rattle.std.specs.Prelude.{◌≡◌, ℕ, ◌<◌, ◌≤◌, length, sum, true, IfOk, IfSome};
ghost use Rattle.step_count.specs.Reads.{AllMay};
ghost use Rattle.packed_bits.specs.Bits.{ones_of};
ghost use Rattle.track_types.specs.Frame.{periods_of, IsFrame};
ghost use Rattle.track_types.specs.declared.frame.Frame.{Frame as FrameView};
ghost use Rattle.snapshots.specs.View.{view_with};
ghost use Rattle.snapshots.specs.Flaws.{IsShapedView};

use crate::touching::Touching;
use crate::words::numbers_of;
use snapshots::{Anchored, SnapFault, Snapshot};
use std::alloc::Global;
use std::marker::Brand;
use std::mem::size_of;
use std::sync::ledger::Blank;
use std::test::Fail;
use step_count::{Reads, Steps};
use track_types::{BitList, Cell, Frame, Kind, Lazy, List32, Memory, PeriodParts, Section, drawn};

// The header of an index of one period of four instants, with a grid of side 4 from (0, 0).
const ONE_PERIOD: Frame = Frame {
    version: 1,
    first: 0,
    span: 4,
    period: 4,
    height: 2,
    base: Cell { x: 0, y: 0 },
    cell: 1,
    tick: 1,
};

// That of an index whose second period has two instants, with a grid far from (0, 0).
const TWO_PERIODS: Frame = Frame {
    version: 1,
    first: 0,
    span: 6,
    period: 4,
    height: 2,
    base: Cell { x: 10, y: -20 },
    cell: 1,
    tick: 1,
};

// Two objects at (0, 0) and (1, 1), the second one from the fourth instant on.
const TWO: [&str; 6] = ["11", "0 3", "1000 1001", "11", "0 1", "3 0"];

// The same from the second instant on; three objects, the second one absent; and both in one cell.
const NEAR: [&str; 6] = ["11", "0 1", "1000 1001", "11", "0 1", "3 0"];

const OUTER: [&str; 6] = ["101", "0 1", "1000 1001", "11", "0 1", "3 0"];

const BOTH: [&str; 6] = ["11", "0 1", "1000 1000", "01", "0 1", "3 0"];

// Four objects: the second one is absent, the last one alone at (2, 1), and the two others are at
// (3, 2). None stands at its own place in leaf order.
const TURNED: [&str; 6] = ["1011", "1 0 1", "0101 0010 0100", "101", "2 0 1", "2 0 1"];

// No object has a block.
const EMPTY: [&str; 6] = ["00", "", "", "", "", ""];

// Bits as digits, between spaces.
fn bits_of(alloc: Global, digits: &str) -> Result<BitList, Memory> {
    let bits: Vec<bool> = digits
        .bytes()
        .filter(|digit| *digit != b' ')
        .map(|digit| digit == b'1')
        .collect(alloc)?;
    if bits.len() > 32 {
        return Err(Memory);
    }
    Ok(BitList::pack(alloc, bits.as_slice())?)
}

fn list_of(alloc: Global, words: &str) -> Result<List32, Memory> {
    Ok(List32::new(numbers_of(alloc, words)?))
}

// The parts that are spelt so: presence, offsets, tree, lasts, perm and lengths.
fn parts_of(alloc: Global, spelt: [&str; 6]) -> Result<PeriodParts, Memory> {
    let [present, offsets, tree, lasts, perm, lengths] = spelt;
    let (present, tree, lasts) = bits_of_three(alloc, [present, tree, lasts])?;
    let (offsets, perm, lengths) = lists_of_three(alloc, [offsets, perm, lengths])?;
    Ok(PeriodParts {
        present,
        offsets,
        tree,
        lasts,
        perm,
        lengths,
    })
}

fn bits_of_three(
    alloc: Global,
    [first, second, third]: [&str; 3],
) -> Result<(BitList, BitList, BitList), Memory> {
    let (first, second) = (bits_of(alloc, first)?, bits_of(alloc, second)?);
    Ok((first, second, bits_of(alloc, third)?))
}

fn lists_of_three(
    alloc: Global,
    [first, second, third]: [&str; 3],
) -> Result<(List32, List32, List32), Memory> {
    let (first, second) = (list_of(alloc, first)?, list_of(alloc, second)?);
    Ok((first, second, list_of(alloc, third)?))
}

// How many ones there are.
fn count_ones(bits: &BitList) -> u32
    ensures { result ≡ ones_of bits.now }
{
    let mut ones = 0;
    for place in 0..bits.len() {
        ones += u32::from(bits.get(place));
    }
    ones
}

// The numbers added up, where they are not too great for that.
fn total_of(numbers: &[u32]) -> Option<u32>
    ensures { IfSome result (λ total. total ≡ sum numbers.now) }
{
    let mut total = 0u32;
    for number in numbers {
        total = total.checked_add(*number)?;
    }
    Some(total)
}

// Whether the parts are small, and as long as their presence bits say.
fn have_shape(parts: &PeriodParts) -> bool
    ensures { result ≡ true → (frame : FrameView) → (number start : ℕ)
        → IsFrame frame → number < periods_of frame → start ≤ 32
        → IsShapedView (view_with frame number (length parts.now.present) start parts.now) }
{
    let objects = parts.present.len();
    let count = count_ones(&parts.present) as usize;
    let Some(total) = total_of(parts.lengths.as_slice()) else {
        return false;
    };
    if objects < 1 || objects > 32 || total > 32 {
        return false;
    }
    if parts.tree.len() > 32 || parts.lasts.len() as usize != count {
        return false;
    }
    if parts.offsets.as_slice().len() != count || parts.perm.as_slice().len() != count {
        return false;
    }
    parts.lengths.as_slice().len() == count
}

// What the check makes of parts: those of the one period, or of the second one, whose logs begin at
// 5. With the snapshot comes how many objects it has.
fn checked(alloc: Global, is_second: bool, spelt: [&str; 6]) -> Result<(Snapshot, u32), SnapFault>
    ensures { IfOk result (λ made. made.1 ≡ made.0.objects) }
{
    let parts = parts_of(alloc, spelt)?;
    if !have_shape(&parts) {
        // The lists are not as long as the presence bits say.
        return Err(SnapFault::Memory);
    }
    let objects = parts.present.len();
    let snapshot = if is_second {
        Snapshot::check(alloc, &TWO_PERIODS, 1, objects, 5, parts)?
    } else {
        Snapshot::check(alloc, &ONE_PERIOD, 0, objects, 0, parts)?
    };
    Ok((snapshot, objects))
}

// Parts of one period or of the second one, and their first flaw: its period, section, index and kind.
type Case = (bool, [&'static str; 6], Option<(u32, Section, u64, Kind)>);

const CASES: [Case; 15] = [
    (false, TWO, None),
    (false, EMPTY, None),
    (
        false,
        ["11", "0 4", "1000 1001", "11", "0 1", "3 0"],
        Some((0, Section::Offsets, 1, Kind::Offset)),
    ),
    (
        false,
        ["11", "0 3", "1000 1001", "10", "0 1", "3 0"],
        Some((0, Section::Lasts, 2, Kind::Cells)),
    ),
    (
        false,
        ["00", "", "1000 1001", "", "", ""],
        Some((0, Section::Lasts, 0, Kind::Cells)),
    ),
    (
        false,
        ["11", "0 1", "", "11", "0 1", "3 0"],
        Some((0, Section::Lasts, 2, Kind::Cells)),
    ),
    (true, NEAR, None),
    (
        true,
        ["11", "0 2", "1000 1001", "11", "0 1", "3 0"],
        Some((1, Section::Offsets, 1, Kind::Offset)),
    ),
    (
        true,
        ["11", "0 1", "1000 0000", "11", "0 1", "3 0"],
        Some((1, Section::Tree, 4, Kind::Tree)),
    ),
    (
        true,
        ["11", "0 1", "1000 1001", "11", "0 0", "3 0"],
        Some((1, Section::Perm, 1, Kind::Perm)),
    ),
    (
        true,
        ["11", "0 1", "1000 1000", "01", "1 0", "3 0"],
        Some((1, Section::Perm, 1, Kind::CellOrder)),
    ),
    (
        true,
        ["11", "0 1", "1000 0000", "10", "0 1", "3 0"],
        Some((1, Section::Tree, 4, Kind::Tree)),
    ),
    (
        true,
        ["11", "0 1", "1000 1001", "10", "0 0", "3 0"],
        Some((1, Section::Lasts, 2, Kind::Cells)),
    ),
    (
        true,
        ["11", "0 1", "1000 1000", "01", "0 0", "3 0"],
        Some((1, Section::Perm, 1, Kind::Perm)),
    ),
    (
        true,
        ["11", "2 2", "1000 1000", "11", "1 1", "3 0"],
        Some((1, Section::Offsets, 0, Kind::Offset)),
    ),
];

// Whether parts have this first flaw.
fn has_flaw(alloc: Global, (is_second, spelt, want): Case) -> Result<bool, SnapFault> {
    match checked(alloc, is_second, spelt) {
        Ok(_made) => Ok(want.is_none()),
        Err(SnapFault::Flaw(flaw)) => {
            let place = (flaw.period, flaw.section, flaw.index, flaw.kind);
            Ok(want == Some(place))
        }
        Err(SnapFault::Memory) => Err(SnapFault::Memory),
    }
}

#[test]
fn parts_are_refused_at_their_first_flaw(rt: HostRuntime) -> Result<(), Fail> {
    for case in CASES {
        let (_, [present, offsets, tree, ..], _) = case;
        assert!(rt; has_flaw(rt.alloc(), case)?, "{present} {offsets} {tree}");
    }
    // A period without a block allocates nothing: its snapshot is all that it takes.
    assert!(rt; size_of::<Snapshot>() <= 16, "bytes");
    Ok(())
}

// The index and the offset of a block, its anchor's cell, and where its log begins and how long it is.
type Block = (u32, u32, i64, i64, u32, u32);

fn told(block: Anchored) -> Block {
    let Cell { x, y } = block.cell;
    (block.index, block.offset, x, y, block.from, block.len)
}

// The block that each object has, asked from the last one on.
fn found_from_last<L: Reads>(
    rt: &HostRuntime,
    snapshot: &Snapshot,
    objects: u32,
    blank: Blank,
) -> Result<Vec<Option<Block>>, Memory>
    requires all { objects ≡ snapshot.now.objects }
    requires name { blank.name ≡ L.name }
    requires parts { blank.parts ≡ L.parts }
    requires some { 0 < L.parts }
    requires may { AllMay L.may }
{
    let mut steps = Steps::<L>::new(rt, blank);
    let mut blocks = Vec::new(rt.alloc());
    for index in (0..objects).rev() {
        blocks.push(snapshot.find(index, &mut steps).map(told))?;
    }
    Ok(blocks)
}

const FIRST: Option<Block> = Some((0, 0, 10, -20, 5, 3));

const SECOND: Option<Block> = Some((1, 1, 11, -19, 8, 0));

const AT_BASE: Option<Block> = Some((1, 1, 10, -20, 8, 0));

const ALONE: Option<Block> = Some((3, 1, 12, -19, 7, 1));

const LEFT: Option<Block> = Some((0, 1, 13, -18, 5, 2));

const RIGHT: Option<Block> = Some((2, 0, 13, -18, 7, 0));

// Parts, and the blocks of the objects from the last one on.
const FOUND: [(bool, [&str; 6], &[Option<Block>]); 6] = [
    (
        false,
        TWO,
        &[Some((1, 3, 1, 1, 3, 0)), Some((0, 0, 0, 0, 0, 3))],
    ),
    (false, EMPTY, &[None, None]),
    (true, NEAR, &[SECOND, FIRST]),
    (true, OUTER, &[Some((2, 1, 11, -19, 8, 0)), None, FIRST]),
    (true, BOTH, &[AT_BASE, FIRST]),
    (true, TURNED, &[ALONE, RIGHT, None, LEFT]),
];

// Whether each object has its block.
fn are_found(
    host: &HostRuntime,
    is_second: bool,
    spelt: [&str; 6],
    blocks: &[Option<Block>],
) -> Result<bool, SnapFault> {
    let (snapshot, objects) = checked(host.alloc(), is_second, spelt)?;
    let found = found_from_last::<Brand>(host, &snapshot, objects, Blank::new(1))?;
    Ok(found.as_slice() == blocks)
}

#[test]
fn each_object_has_its_block(rt: HostRuntime) -> Result<(), Fail> {
    for (is_second, spelt, blocks) in FOUND {
        let [present, offsets, ..] = spelt;
        assert!(rt;
            are_found(&rt, is_second, spelt, blocks)?,
            "{present} {offsets}"
        );
    }
    Ok(())
}

// What the walks over the blocks of all leaves draw, leaf by leaf, and once more after each leaf.
fn drawn_from_leaves<L: Reads>(
    rt: &HostRuntime,
    snapshot: &Snapshot,
    blank: Blank,
) -> Result<Vec<Option<Block>>, Memory>
    requires name { blank.name ≡ L.name }
    requires parts { blank.parts ≡ L.parts }
    requires some { 0 < L.parts }
    requires may { AllMay L.may }
{
    let mut steps = Steps::<L>::new(rt, blank);
    let mut blocks = Vec::new(rt.alloc());
    for leaf in 0..snapshot.tree().leaves() {
        let cell = snapshot.tree().leaf_cell(leaf, &mut steps);
        let mut members = snapshot.members(leaf, cell);
        for block in drawn(&mut members, &mut steps) {
            blocks.push(Some(told(block)))?;
        }
        blocks.push(members.draw(&mut steps).map(told))?;
    }
    Ok(blocks)
}

// What a walk over the blocks in squares that a rect touches draws, and once more at its end.
fn drawn_from_rect<L: Reads>(
    rt: &HostRuntime,
    snapshot: &Snapshot,
    touching: Touching,
    blank: Blank,
) -> Result<Vec<Option<Block>>, Memory>
    requires name { blank.name ≡ L.name }
    requires parts { blank.parts ≡ L.parts }
    requires some { 0 < L.parts }
    requires may { AllMay L.may }
{
    let mut steps = Steps::<L>::new(rt, blank);
    let mut walk = snapshot.objects_in(touching);
    let mut blocks = Vec::new(rt.alloc());
    for block in drawn(&mut walk, &mut steps) {
        blocks.push(Some(told(block)))?;
    }
    blocks.push(walk.draw(&mut steps).map(told))?;
    Ok(blocks)
}

// Parts, and what their leaves give.
const BY_LEAF: [([&str; 6], &[Option<Block>]); 3] = [
    (NEAR, &[FIRST, None, SECOND, None]),
    (BOTH, &[FIRST, AT_BASE, None]),
    (TURNED, &[ALONE, None, LEFT, RIGHT, None]),
];

// Whether the leaves give these blocks.
fn are_in_leaves(
    host: &HostRuntime,
    spelt: [&str; 6],
    blocks: &[Option<Block>],
) -> Result<bool, SnapFault> {
    let (snapshot, _objects) = checked(host.alloc(), true, spelt)?;
    let found = drawn_from_leaves::<Brand>(host, &snapshot, Blank::new(1))?;
    Ok(found.as_slice() == blocks)
}

// Parts, the bounds of a rect, and what it gives.
const BY_RECT: [([&str; 6], [i32; 4], &[Option<Block>]); 7] = [
    (NEAR, [11, -19, 12, -18], &[SECOND, None]),
    (NEAR, [10, -20, 13, -17], &[FIRST, SECOND, None]),
    (NEAR, [15, -15, 16, -14], &[None]),
    (TURNED, [10, -20, 13, -17], &[ALONE, LEFT, RIGHT, None]),
    (TURNED, [12, -19, 12, -19], &[ALONE, None]),
    (TURNED, [13, -18, 13, -18], &[LEFT, RIGHT, None]),
    (TURNED, [13, -19, 13, -19], &[None]),
];

// Whether a rect gives these blocks.
fn are_in_rect(
    host: &HostRuntime,
    spelt: [&str; 6],
    [x1, y1, x2, y2]: [i32; 4],
    blocks: &[Option<Block>],
) -> Result<bool, SnapFault> {
    let (snapshot, _objects) = checked(host.alloc(), true, spelt)?;
    let touching = Touching::rect(x1, y1, x2, y2);
    let found = drawn_from_rect::<Brand>(host, &snapshot, touching, Blank::new(1))?;
    Ok(found.as_slice() == blocks)
}

#[test]
fn leaves_and_rects_give_blocks_by_object(rt: HostRuntime) -> Result<(), Fail> {
    for (spelt, blocks) in BY_LEAF {
        let [present, offsets, ..] = spelt;
        assert!(rt; are_in_leaves(&rt, spelt, blocks)?, "{present} {offsets}");
    }
    for (spelt, rect, blocks) in BY_RECT {
        let [present, ..] = spelt;
        assert!(rt;
            are_in_rect(&rt, spelt, rect, blocks)?,
            "{present} {rect:?}"
        );
    }
    Ok(())
}
