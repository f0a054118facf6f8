ghost use Rattle.std.specs.Prelude.{◌≡◌, ◌+◌, ◌/◌, ◌^◌, ◌≤◌};
ghost use Rattle.gridding.specs.Floor.{IsFloor, floor_div};
ghost use Rattle.track_types.specs.Limits.{IsResolution};
ghost use Rattle.track_types.specs.Near.{IsNear};
ghost use Rattle.track_types.specs.declared.limit.TheConstants.{MAX_PLACE};

/// Reciprocals are in units of 2^-71. Quotients are exact where number times divisor is below 2^71, as it is for
/// numbers up to 2^40 and divisors up to 2^30.
const SCALE_BITS: u32 = 71;

/// A divisor from 1 to 2^30, with its reciprocal. A quotient then takes a product and a shift in place of a division
/// (T. Granlund and P. L. Montgomery, "Division by invariant integers using multiplication", 1994).
#[derive(Clone, Copy)]
pub struct Divisor {
    value: u64,
    // The least number above 2^71 / value.
    reciprocal: u128,
    ghost resolution: { IsResolution value },
    ghost above: { reciprocal ≡ 2 ^ 71 / value + 1 },
}

impl Divisor {
    ghost use Rattle.gridding.specs.Grid.{divisor_value};

    /// The divisor of this value.
    pub fn new(value: u64) -> Self
        requires { IsResolution value }
        ensures { divisor_value result ≡ value }
    {
        Divisor {
            value,
            reciprocal: (1 << SCALE_BITS) / u128::from(value) + 1,
        }
    }

    /// The quotient, rounded towards minus infinity.
    pub fn floor(self, number: i64) -> i64
        requires { IsNear number }
        ensures exact { result ≡ floor_div number (divisor_value self) }
        ensures law { IsFloor number (divisor_value self) result }
    {
        // From -1 down, numbers and their quotients are the complements of those from 0 up.
        let negative = number < 0;
        let natural = if negative { !number } else { number };
        let quotient = self.quotient(natural as u64) as i64;
        if negative { !quotient } else { quotient }
    }

    // The quotient, rounded down.
    fn quotient(self, number: u64) -> u64
        requires { number ≤ MAX_PLACE }
        ensures { result ≡ number / divisor_value self }
    {
        (u128::from(number) * self.reciprocal >> SCALE_BITS) as u64
    }
}
