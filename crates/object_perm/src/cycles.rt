ghost use Rattle.std.specs.Prelude.{◌≡◌, ◌^◌, ◌<◌, true, false, length, slice_index_or, IfOk};
ghost use Rattle.object_perm.specs.Permutation.{PermutesPlaces};
ghost use Rattle.object_perm.specs.Shortcuts.{LeadBack};
ghost use Rattle.object_perm.specs.Settled.{IsSettled, KeepsMarks};

use std::alloc::Global;
use track_types::Memory;

/// How many moves lie between two shortcuts of a cycle.
const GAP: u32 = 16;

/// For each place the target of its shortcut, if it has one, in one pass over the cycles.
pub fn find_shortcuts(alloc: Global, values: &[u32]) -> Result<Vec<Option<u32>>, Memory>
    requires permutes { PermutesPlaces values.now }
    requires short { length values.now < 2 ^ 32 }
    ensures back { IfOk result (λ shortcuts. LeadBack values.now shortcuts.items) }
    ensures same_length { IfOk result (λ shortcuts. length shortcuts.items ≡ length values.now) }
{
    let mut seen = vec![in alloc; false; values.len()]?;
    let mut shortcuts = vec![in alloc; None; values.len()]?;
    for leader in 0..values.len() {
        if !seen[leader] {
            mark_cycle(values, leader as u32, &mut seen, &mut shortcuts);
        }
    }
    Ok(shortcuts)
}

// Marks the cycle of a place that no earlier cycle had: the least place of its cycle. Along a cycle
// longer than `GAP`, each `GAP`-th place, counted from the leader, leads back to the one before it,
// and the leader to the last.
fn mark_cycle(values: &[u32], leader: u32, seen: &mut [bool], shortcuts: &mut [Option<u32>])
    requires permutes { PermutesPlaces values.now }
    requires short { length values.now < 2 ^ 32 }
    requires within { leader < length values.now }
    requires unseen { slice_index_or seen.old leader false ≡ false }
    requires settled { IsSettled values.now seen.old shortcuts.old }
    ensures settled { IsSettled values.now seen.new shortcuts.new }
    ensures marked { slice_index_or seen.new leader false ≡ true }
    ensures kept { KeepsMarks seen.old seen.new }
{
    let mut place = leader;
    let mut stored = leader;
    let mut gap = 0;
    seen[leader as usize] = true;
    while values[place as usize] != leader {
        place = values[place as usize];
        seen[place as usize] = true;
        gap += 1;
        if gap == GAP {
            shortcuts[place as usize] = Some(stored);
            stored = place;
            gap = 0;
        }
    }
    if stored != leader {
        shortcuts[leader as usize] = Some(stored);
    }
}
