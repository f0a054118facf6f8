ghost use Rattle.std.specs.Prelude.{◌≡◌, ◌+◌, ◌^◌, ◌<◌, ◌≤◌, None, length, sum, IfErr, IfOk, OnOk};
ghost use Rattle.object_perm.specs.Permutation.{PermutesPlaces};
ghost use Rattle.track_types.specs.Flaws.{flaw_in};
ghost use Rattle.track_types.specs.Frame.{instants_in, periods_of, wide_of, IsFrame};
ghost use Rattle.track_types.specs.declared.limit.TheConstants.{MAX_SYMBOLS, MAX_TREE};
ghost use Rattle.k2_tree.specs.Flaws.{StandsFor};
ghost use Rattle.snapshots.specs.Flaws.{bits_flaw, have_cells, offset_flaw, order_flaw, perm_flaw, IsSnapFaultFor};
ghost use Rattle.snapshots.specs.Stored.{starts_of};
ghost use Rattle.snapshots.specs.declared.fault.SnapFault.TheVariants.{Flaw as IsFlaw};

use crate::fault::SnapFault;
use bit_rank::{Bits, NoRoom};
use k2_tree::{K2Tree, TreeFault};
use object_perm::{Perm, PermFault};
use std::alloc::Global;
use track_types::{BitList, Flaw, Frame, Kind, List32, Memory, Section};

/// How many instants a period has. The header is in its ranges, and the number is that of one of
/// its periods.
pub fn instants_in(frame: &Frame, number: u32) -> u32
    requires header { IsFrame frame.now }
    requires period { number < periods_of frame.now }
    ensures { result ≡ instants_in frame.now number }
{
    frame.timeline().instants_in(number)
}

/// A flaw of the period with this number.
pub fn flaw(number: u32, section: Section, kind: Kind, index: u32) -> SnapFault
    ensures { result ≡ IsFlaw (flaw_in number section kind index) }
{
    SnapFault::Flaw(Flaw {
        section,
        period: number,
        index: u64::from(index),
        kind,
    })
}

/// The place of the first offset that is not below the number of the period's instants.
pub fn find_late(offsets: &[u32], instants: u32) -> Option<u32>
    requires { length offsets.now < 2 ^ 32 }
    ensures { result ≡ offset_flaw instants offsets.now }
{
    for (place, offset) in offsets.iter().enumerate() {
        if *offset >= instants {
            return Some(place as u32);
        }
    }
    None
}

/// Whether as many objects are the last of their cell as there are leaves, and the last object of
/// all is one of them.
pub fn has_cells(lasts: &BitList, leaves: u32) -> bool
    ensures { result ≡ have_cells lasts.now leaves }
{
    let mut cells = 0;
    let mut is_last = true;
    for place in 0..lasts.len() {
        is_last = lasts.get(place);
        cells += u32::from(is_last);
    }
    is_last && cells == leaves
}

/// The first place in leaf order whose object is in the cell of the one before it, and not greater.
pub fn find_disorder(lasts: &BitList, perm: &[u32]) -> Option<u32>
    requires { length lasts.now ≡ length perm.now }
    ensures { result ≡ order_flaw lasts.now perm.now }
{
    for place in 1..lasts.len() {
        let i = place as usize;
        if !lasts.get(place - 1) && perm[i] <= perm[i - 1] {
            return Some(place);
        }
    }
    None
}

/// Takes bits as the tree of a period's anchors, or says at which place they first fail to be a
/// tree's. There are at most `MAX_TREE` of them. Memory is taken for the directory.
pub fn check_tree(
    alloc: Global,
    bits: BitList,
    frame: &Frame,
    number: u32,
) -> Result<K2Tree, SnapFault>
    requires header { IsFrame frame.now }
    requires few { length bits ≤ MAX_TREE }
    ensures ok { IfOk result (λ tree. StandsFor frame.now.height (wide_of frame.now) frame.now.base
        bits tree) }
    ensures exact { OnOk result (bits_flaw number frame.now bits ≡ None) }
    ensures flaw { IfErr result (λ fault.
        IsSnapFaultFor (bits_flaw number frame.now bits) fault) }
{
    match K2Tree::check(alloc, bits, frame.height, frame.wide_levels(), frame.base) {
        Ok(tree) => Ok(tree),
        Err(TreeFault::Flaw { place }) => Err(flaw(number, Section::Tree, Kind::Tree, place)),
        Err(TreeFault::Memory) => Err(SnapFault::Memory),
    }
}

/// Takes a list as the permutation from leaf order to the present objects, which ascend in each
/// cell, or says at which place it first fails. It judges whether it is a permutation before it
/// judges the order in cells. Memory is taken for the shortcuts and for marks while the call runs.
pub fn check_perm(
    alloc: Global,
    list: List32,
    lasts: &BitList,
    number: u32,
) -> Result<Perm, SnapFault>
    requires long { length lasts.now ≡ length list }
    requires few { length list < 2 ^ 32 }
    ensures ok { IfOk result (λ perm. perm ≡ list) }
    ensures permutes { OnOk result (PermutesPlaces list) }
    ensures exact { OnOk result (perm_flaw number lasts.now list ≡ None) }
    ensures flaw { IfErr result (λ fault. IsSnapFaultFor (perm_flaw number lasts.now list) fault) }
{
    let disorder = find_disorder(lasts, list.as_slice());
    let perm = match Perm::check(alloc, list) {
        Ok(perm) => perm,
        Err(PermFault::Flaw { index }) => {
            return Err(flaw(number, Section::Perm, Kind::Perm, index));
        }
        Err(PermFault::Memory) => return Err(SnapFault::Memory),
    };
    if let Some(place) = disorder {
        return Err(flaw(number, Section::Perm, Kind::CellOrder, place));
    }
    Ok(perm)
}

/// The list with its directory, for which memory is taken.
pub fn indexed(alloc: Global, list: BitList) -> Result<Bits, Memory>
    ensures { IfOk result (λ bits. bits ≡ list) }
{
    match Bits::from_list(alloc, list) {
        Ok(bits) => Ok(bits),
        Err(NoRoom) => Err(Memory),
    }
}

/// Where each log begins: the first at `start`, each other where the one before ends. All lengths and
/// the start add up to at most `MAX_SYMBOLS`.
pub fn starts_of(alloc: Global, start: u32, lengths: &[u32]) -> Result<List32, Memory>
    requires { start + sum lengths.now ≤ MAX_SYMBOLS }
    ensures { IfOk result (λ starts. starts ≡ starts_of start lengths.now) }
{
    let mut starts = Vec::with_capacity(alloc, lengths.len())?;
    let mut next = start;
    for len in lengths {
        starts.push(next)?;
        next += *len;
    }
    Ok(List32::new(starts))
}

/// The sum of numbers, which fits 32 bits.
pub fn total(numbers: &[u32]) -> u32
    requires { sum numbers.now < 2 ^ 32 }
    ensures { result ≡ sum numbers.now }
{
    numbers.iter().sum()
}
