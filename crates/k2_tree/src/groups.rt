ghost use Rattle.std.specs.Prelude.{◌≡◌, ◌+◌, ◌*◌, ◌^◌, ◌<◌, ◌≤◌};
ghost use Rattle.k2_tree.specs.Widths.{fan_of, width_below};
ghost use Rattle.k2_tree.specs.Groups.{group_start, square_at, digit_at, square_width};

/// The width of the level below a square with `level` digits below it, where the last levels, of
/// `low` digits in all, take one each.
pub fn width_below(low: u32, level: u32) -> u32
    requires { low < 2 ^ 31 }
    ensures { result ≡ width_below low level }
{
    if low + 1 < level { 2 } else { 1 }
}

/// The width of the level below the square with this number, where so many are split in sixteen.
pub fn width_at(upper: u32, square: u32) -> u32
    ensures value { result ≡ square_width upper square }
    ensures some { 1 ≤ result }
    ensures within { result ≤ 2 }
{
    if square < upper { 2 } else { 1 }
}

/// How many squares a level of this width splits a square in.
pub fn fan_of(width: u32) -> u32
    requires { width ≤ 2 }
    ensures value { result ≡ fan_of width }
    ensures some { 1 ≤ result }
    ensures within { result ≤ 16 }
{
    1 << (2 * width)
}

/// Where the children of the square with this number start, where so many are split in sixteen:
/// those are the first, and each has sixteen bits. The others have four.
#[tactic(auto, unfolding(crate::specs::Groups::group_start))]
pub fn group_start(upper: u32, square: u32) -> u32
    requires { group_start upper square < 2 ^ 32 }
    ensures { result ≡ group_start upper square }
{
    if square < upper {
        16 * square
    } else {
        16 * upper + 4 * (square - upper)
    }
}

/// The square in whose group a place is.
#[tactic(auto, unfolding(crate::specs::Groups::square_at))]
pub fn square_at(upper: u32, place: u32) -> u32
    requires { 16 * upper < 2 ^ 32 }
    ensures { result ≡ square_at upper place }
{
    if place < 16 * upper {
        place / 16
    } else {
        upper + (place - 16 * upper) / 4
    }
}

/// Which of its children stands there.
#[tactic(auto, unfolding(crate::specs::Groups::digit_at))]
pub fn digit_at(upper: u32, place: u32) -> u32
    requires { 16 * upper < 2 ^ 32 }
    ensures value { result ≡ digit_at upper place }
    ensures within { result < 16 }
{
    if place < 16 * upper {
        place % 16
    } else {
        (place - 16 * upper) % 4
    }
}
