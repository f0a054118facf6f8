ghost use Rattle.std.specs.Prelude.{◌≡◌, ◌+◌, ◌%◌, ◌^◌, ◌<◌, ◌≤◌, ◌++◌, ◌==◌, length, IfOk, OnOk};
ghost use Rattle.std.specs.Int.{bit_at};
ghost use Rattle.std.specs.Int.RustNames.{count_ones};
ghost use Rattle.object_perm.specs.Marks.{marks_of, targets_of};

use track_types::Memory;

/// How many places a group has.
pub const PLACES: u32 = 32;

/// Which of 32 places have a shortcut, as marks, and how many places of earlier groups have one. The
/// pair is one word of 64 bits, so that it is had by one read.
pub type Group = (u32, u32);

/// The group of at most 32 places, whose targets it adds to those of earlier groups.
pub fn pack_group(places: &[Option<u32>], targets: &mut Vec<u32>) -> Result<Group, Memory>
    requires short { length places.now ≤ 32 }
    requires few { length targets.old.items + length places.now < 2 ^ 32 }
    ensures marks { IfOk result (λ group. group.0 ≡ marks_of places.now) }
    ensures before { IfOk result (λ group. group.1 ≡ length targets.old.items) }
    ensures targets { OnOk result (targets.new.items ≡ targets.old.items ++ targets_of places.now) }
{
    let before = targets.len() as u32;
    let mut marks = 0;
    for (bit, target) in places.iter().enumerate() {
        if let Some(target) = target {
            marks |= 1 << bit;
            targets.push(*target)?;
        }
    }
    Ok((marks, before))
}

/// Whether the place has a shortcut.
pub fn is_marked(marks: u32, bit: u32) -> bool
    requires { bit < 32 }
    ensures { result ≡ (bit_at marks bit == 1) }
{
    (marks >> bit) & 1 == 1
}

/// How many places of the group before this one have a shortcut.
pub fn count_before(marks: u32, bit: u32) -> u32
    requires { bit < 32 }
    ensures { result ≡ count_ones (marks % 2 ^ bit) }
{
    (marks & ((1 << bit) - 1)).count_ones()
}
