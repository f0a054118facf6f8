ghost use Rattle.std.specs.Prelude.{◌≡◌, ◌-◌, ◌^◌, ◌<◌};
ghost use Rattle.spiral_code.specs.Spiral.{ring_of, code_of, move_of, square};

use crate::ring_place::RingPlace;

/// The code of the movement that goes `dx` cells to the right and `dy` up.
///
/// Both distances are below 2^24 in size. Code 0 is the movement that stands still, and a ring's
/// codes follow those of all smaller rings.
pub fn encode_move(dx: i64, dy: i64) -> u64
    requires { ring_of dx dy < 2 ^ 24 }
    ensures exact { result ≡ code_of dx dy }
    ensures within { result < square (2 ^ 25 - 1) }
    ensures back { move_of result ≡ (dx, dy) }
{
    if dx == 0 && dy == 0 {
        return 0;
    }
    RingPlace::from_move(dx, dy).code()
}

/// The movement of a code: how many cells it goes to the right, and how many up.
///
/// The codes below (2^25 - 1)^2 are those of the movements that `encode_move` takes.
pub fn decode_move(code: u64) -> (i64, i64)
    requires { code < square (2 ^ 25 - 1) }
    ensures exact { result ≡ move_of code }
    ensures within { ring_of result.0 result.1 < 2 ^ 24 }
    ensures back { code_of result.0 result.1 ≡ code }
{
    if code == 0 {
        return (0, 0);
    }
    RingPlace::from_code(code).movement()
}
