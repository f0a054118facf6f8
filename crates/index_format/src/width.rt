ghost use Rattle.std.specs.Prelude.{◌≡◌, ◌≤◌, ◌^◌};
ghost use Rattle.track_types.specs.PartsForm.{width_for};

/// How many bits a symbol takes at most.
const WIDEST: u32 = 26;

/// How many bits it takes to tell so many symbols apart: 1 to 26 for at most 2^26 symbols.
pub fn width_for(symbols: u32) -> u32
    requires { symbols ≤ 2 ^ 26 }
    ensures exact { result ≡ width_for symbols }
    ensures some { 1 ≤ result }
    ensures narrow { result ≤ 26 }
{
    for width in 1..WIDEST {
        if symbols <= 1 << width {
            return width;
        }
    }
    WIDEST
}
