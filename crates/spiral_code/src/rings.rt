ghost use Rattle.std.specs.Prelude.{◌≡◌, ◌+◌, ◌*◌, ◌-◌, ◌^◌, ◌<◌, ◌≤◌};
ghost use Rattle.spiral_code.specs.Spiral.{ring_of, move_of, first_code, square};

/// The ring of a code: the greater of the two distances, in cells, that its movement goes.
///
/// Ring `r` has the codes from `(2 * r - 1)^2` to `(2 * r + 1)^2 - 1`, so the whole square root of
/// each is `2 * r - 1` or `2 * r`.
pub fn ring(code: u64) -> u64
    requires { code < square (2 ^ 25 - 1) }
    ensures exact { let m = move_of code in result ≡ ring_of m.0 m.1 }
    ensures within { result < 2 ^ 24 }
    ensures begins { first_code result ≤ code }
    ensures ends { code < first_code (result + 1) }
{
    (root(code) + 1) / 2
}

// The whole square root of a number. Most codes are small, and the root of a small number is found in fewer steps.
fn root(number: u64) -> u64
    ensures square_le { result * result ≤ number }
    ensures next_square_gt { number < (result + 1) * (result + 1) }
    ensures bound { result < 2 ^ 32 }
{
    match u16::try_from(number) {
        Ok(small) => u64::from(small.isqrt()),
        Err(_) => number.isqrt(),
    }
}

/// The first code of a ring from 1 on.
pub(crate) fn first_code(ring: u64) -> u64
    requires outside { 0 < ring }
    requires in_range { ring < 2 ^ 24 }
    ensures { result ≡ first_code ring }
{
    (2 * ring - 1) * (2 * ring - 1)
}
