ghost use Rattle.std.specs.Prelude.{◌≡◌, ℕ, suc, ◌+◌, ◌-◌, ◌*◌, ◌^◌, ◌<◌, ◌≤◌, ◌++◌, ◌∷◌, length};
ghost use Rattle.std.specs.Prelude.{map, All, IfOk, OnOk, slice_index, ◌≤ℤ◌, ℤ};
ghost use Rattle.box_tree.specs.Building.{child_task, BeginsWith, IsTaskAt, IsMade, IsMadeLink};
ghost use Rattle.box_tree.specs.Building.{IsPushed, IsSplitInto, IsTask, task_levels};
ghost use Rattle.box_tree.specs.Boxes.{IsFrom};
ghost use Rattle.track_types.specs.declared.cell.Cell.{Cell};
ghost use Rattle.box_tree.specs.NodeKinds.{link_kind};
ghost use Rattle.box_tree.specs.Levels.{children, digits, square_start};
ghost use Rattle.box_tree.specs.Places.{Ascends, box_at};
ghost use Rattle.box_tree.specs.Tree.{code_at, levels_below, AreCells};
ghost use Rattle.track_types.specs.declared.limit.TheConstants.{MAX_HEIGHT};
ghost use Rattle.track_types.specs.Near.{IsBoxWithin, IsWithin};
ghost use Rattle.k2_tree.specs.Areas.{IsBoxInside};
ghost use Rattle.std.specs.List.{range_with_len};
ghost use Rattle.k2_tree.specs.Pruning.{place_among};
ghost use Rattle.k2_tree.specs.TreeBits.{code_limit};

use crate::node_kind::{BUCKET, BUCKET_LIMIT};
use crate::task::Task;
use k2_tree::{column_of, fan_of, row_of};
use std::alloc::Global;
use track_types::{CellBox, Memory};

// The boxes and the links of nodes.
#[derive(Drop)]
pub struct Made {
    pub areas: Vec<CellBox>,
    pub links: Vec<(u32, u32)>,
}

// The task of the whole grid, if there is a place.
pub fn begin(alloc: Global, codes: &[u64], height: u32, all: u32) -> Result<Vec<Task>, Memory>
    requires short { length codes.now < 2 ^ 31 }
    requires inside { All (λ code. code < 4 ^ all) codes.now }
    requires few { all ≤ MAX_HEIGHT }
    ensures tasks { IfOk result (λ tasks. (narrow : ℕ) → digits (levels_below narrow height) ≡ all
        → All (IsTask codes.now narrow) tasks.items) }
    ensures first { IfOk result (λ tasks. 0 < length codes.now → IsTaskAt tasks.items height 0 0) }
{
    let mut tasks = Vec::new(alloc);
    if codes.len() == 0 {
        return Ok(tasks);
    }
    tasks.push(Task {
        below: height,
        level: all,
        prefix: 0,
        low: 0,
        high: codes.len() as u32,
    })?;
    Ok(tasks)
}

// Makes a node of each task, and of those that come after them.
pub fn make(
    alloc: Global,
    codes: &[u64],
    boxes: &[CellBox],
    narrow: u32,
    tasks: &mut Vec<Task>,
) -> Result<Made, Memory>
    requires ascend { Ascends 0 codes.now }
    requires short { length codes.now < 2 ^ 31 }
    requires same { length boxes.now ≡ length codes.now }
    requires near { All IsBoxWithin boxes.now }
    requires tasks { All (IsTask codes.now narrow) tasks.old.items }
    ensures made { IfOk result (λ made. (number : ℕ) → number < length tasks.new.items
        → IsMade codes.now boxes.now narrow tasks.new.items made.areas.items made.links.items
        number) }
    ensures near { IfOk result (λ made. All IsBoxWithin made.areas.items) }
    ensures from { IfOk result (λ made. (base : Cell) → All (IsFrom base) boxes.now
        → All (IsFrom base) made.areas.items) }
    ensures begin { OnOk result (BeginsWith tasks.old.items tasks.new.items) }
{
    let mut areas = Vec::new(alloc);
    let mut links = Vec::new(alloc);
    while links.len() < tasks.len() {
        let task = tasks[links.len()];
        areas.push(round(boxes, task.low, task.high))?;
        let link = link_of(codes, narrow, task, tasks)?;
        links.push(link)?;
    }
    Ok(Made { areas, links })
}

// A box with the boxes of some places.
fn round(boxes: &[CellBox], low: u32, high: u32) -> CellBox
    requires some { low < high }
    requires within { high ≤ length boxes.now }
    requires near { All IsBoxWithin boxes.now }
    ensures covers { All (λ place. IsBoxInside (box_at boxes.now place) result)
        (range_with_len low (high - low)) }
    ensures from { (base : Cell) → All (IsFrom base) boxes.now → IsFrom base result }
    ensures within { IsBoxWithin result }
{
    let mut area = boxes[low as usize];
    for place in low + 1..high {
        area = area.joined(&boxes[place as usize]);
    }
    area
}

// The link of the node that is made of a task. Where it is a branch, the tasks of its children
// come after the others.
fn link_of(
    codes: &[u64],
    narrow: u32,
    task: Task,
    tasks: &mut Vec<Task>,
) -> Result<(u32, u32), Memory>
    requires ascend { Ascends 0 codes.now }
    requires is { IsTask codes.now narrow task }
    requires short { length codes.now < 2 ^ 31 }
    ensures ok { IfOk result (λ link.
        IsMadeLink codes.now narrow task (link_kind link) tasks.old.items tasks.new.items) }
{
    if task.below == 0 || task.high - task.low <= BUCKET_LIMIT {
        return Ok((task.low, BUCKET + task.high));
    }
    let width = width_of(narrow, task.below);
    let mask = split(codes, width, task, tasks)?;
    let Ok(end) = u32::try_from(tasks.len()) else {
        return Err(Memory);
    };
    Ok((end, mask))
}

// How many digits the level below a square takes.
pub fn width_of(narrow: u32, below: u32) -> u32
    requires { 1 ≤ below }
    ensures value { levels_below narrow below ≡ result ∷ levels_below narrow (below - 1) }
    ensures some { 1 ≤ result }
    ensures few { result ≤ 2 }
{
    if below <= narrow { 1 } else { 2 }
}

// Puts the tasks of those children of a square that hold a place after the others, and answers
// which digits these have.
fn split(codes: &[u64], width: u32, task: Task, tasks: &mut Vec<Task>) -> Result<u32, Memory>
    requires ascend { Ascends 0 codes.now }
    requires short { length codes.now < 2 ^ 31 }
    requires some { 1 ≤ width }
    requires few { width ≤ 2 }
    requires below { 1 ≤ task.below }
    requires level { width ≤ task.level }
    requires deep { task.level ≤ MAX_HEIGHT }
    requires small { (task.prefix + 1) * 4 ^ task.level ≤ code_limit }
    requires low { task.low ≡ square_start codes.now task.level task.prefix }
    requires high { task.high ≡ square_start codes.now task.level (task.prefix + 1) }
    ensures ok { IfOk result (λ mask.
        IsSplitInto codes.now width task mask tasks.old.items tasks.new.items) }
{
    let fan = fan_of(width);
    let level = task.level - width;
    let first = u64::from(fan) * task.prefix;
    let mut low = task.low;
    let mut mask = 0;
    for digit in 0..fan {
        let prefix = first + u64::from(digit);
        let high = end_of(codes, low, task.high, bound_of(prefix + 1, level));
        let child = Task {
            below: task.below - 1,
            level,
            prefix,
            low,
            high,
        };
        mask = push_child(tasks, child, digit, mask)?;
        low = high;
    }
    Ok(mask)
}

// Puts the task of a child after the others where it holds a place, and answers the mask with its
// digit.
fn push_child(tasks: &mut Vec<Task>, child: Task, digit: u32, mask: u32) -> Result<u32, Memory>
    requires digit { digit < 16 }
    requires small { mask < 2 ^ digit }
    ensures ok { IfOk result (λ now.
        IsPushed child digit mask now tasks.old.items tasks.new.items) }
{
    if child.low < child.high {
        tasks.push(child)?;
        return Ok(mask + (1 << digit));
    }
    Ok(mask)
}

// The least number with a prefix that drops so many digits.
fn bound_of(prefix: u64, level: u32) -> u64
    requires low { level ≤ MAX_HEIGHT }
    requires small { prefix * 4 ^ level ≤ code_limit }
    ensures { result ≡ prefix * 4 ^ level }
{
    prefix << (2 * level)
}

// How many ascending numbers are below one, which is between these bounds.
fn end_of(codes: &[u64], low: u32, high: u32, bound: u64) -> u32
    requires ascend { Ascends 0 codes.now }
    requires low { low ≤ place_among codes.now bound }
    requires high { place_among codes.now bound ≤ high }
    requires within { high ≤ length codes.now }
    ensures { result ≡ place_among codes.now bound }
{
    let mut low = low;
    let mut high = high;
    while low < high {
        let middle = low + (high - low) / 2;
        if codes[middle as usize] < bound {
            low = middle + 1;
        } else {
            high = middle;
        }
    }
    low
}

// The column and the row of each of the Morton numbers.
pub fn cells_of(alloc: Global, codes: &[u64]) -> Result<Vec<(u32, u32)>, Memory>
    requires { All (λ code. code < code_limit) codes.now }
    ensures codes { IfOk result (λ cells. map code_at cells.items ≡ codes.now) }
    ensures small { IfOk result (λ cells. AreCells cells.items) }
{
    let mut cells = Vec::with_capacity(alloc, codes.len())?;
    for code in codes {
        cells.push((column_of(*code), row_of(*code)))?;
    }
    Ok(cells)
}
