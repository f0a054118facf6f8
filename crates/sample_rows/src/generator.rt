ghost use Rattle.std.specs.Prelude.{◌≡◌, ◌^◌, ◌<◌};
ghost use Rattle.sample_rows.specs.Sample.{next_state, draw_value};

/// A linear congruential generator whose state has 64 bits.
#[derive(Clone, Copy, Debug, PartialEq, Eq)]
pub struct Generator {
    pub state: u64,
}

/// The multiplier of Knuth's generator MMIX.
const MULTIPLIER: u64 = 6_364_136_223_846_793_005;

/// The increment of that generator.
const INCREMENT: u64 = 1_442_695_040_888_963_407;

/// How many of the lower bits of a state are left out of what is drawn: their periods are short.
const LOWER_BITS: u32 = 33;

impl Generator {
    // The generator whose first draw is made from this seed.
    pub(crate) fn new(seed: u64) -> Self
        ensures { result.state ≡ seed }
    {
        Generator { state: seed }
    }

    // Draws a number below 2^31.
    pub(crate) fn draw(&mut self) -> u32
        ensures state { self.new.state ≡ next_state self.old.state }
        ensures value { result ≡ draw_value self.new.state }
    {
        self.state = self.state.wrapping_mul(MULTIPLIER).wrapping_add(INCREMENT);
        (self.state >> LOWER_BITS) as u32
    }
}
