ghost use Rattle.std.specs.Prelude.{◌≡◌, ◌+◌, ◌-◌, ◌*◌, ◌^◌, ◌<◌, pos, neg_ℤ, ◌+ℤ◌, ◌<ℤ◌, ◌≤ℤ◌};

use crate::rings::{first_code, ring};

/// The sides of a ring, in the order in which the spiral goes along them. A corner ends a side.
#[derive(Clone, Copy)]
pub(crate) enum Side {
    /// Upwards.
    East,
    /// To the left.
    North,
    /// Downwards.
    West,
    /// To the right.
    South,
}

impl Side {
    ghost use Rattle.spiral_code.specs.Side.{sides_before};

    /// The side that has this number of sides before it.
    fn nth(number: u64) -> Self
        requires { number < 4 }
        ensures { sides_before result ≡ number }
    {
        match number {
            0 => Side::East,
            1 => Side::North,
            2 => Side::West,
            _ => Side::South,
        }
    }

    /// How many sides come before this one.
    fn number(self) -> u64
        ensures { result ≡ sides_before self }
    {
        match self {
            Side::East => 0,
            Side::North => 1,
            Side::West => 2,
            Side::South => 3,
        }
    }
}

/// A place of the spiral on a ring from 1 on.
#[derive(Clone, Copy)]
pub(crate) struct RingPlace {
    ring: u64,
    side: Side,
    /// How far along the side, from 0 on.
    step: u64,
    ghost outside: { 0 < ring },
    ghost in_range: { ring < 2 ^ 24 },
    ghost on_side: { step < 2 * ring },
}

impl RingPlace {
    ghost use Rattle.spiral_code.specs.Spiral.{ring_of, move_at, code_of, move_of, square};

    /// The place of the movement `(dx, dy)`.
    pub(crate) fn from_move(dx: i64, dy: i64) -> Self
        requires moving { 0 < ring_of dx dy }
        requires in_range { ring_of dx dy < 2 ^ 24 }
        ensures { move_at result.ring result.side result.step ≡ (dx, dy) }
    {
        let ring = dx.unsigned_abs().max(dy.unsigned_abs());
        let edge = ring as i64;
        if dx == edge && dy > -edge {
            RingPlace::on(ring, Side::East, dy)
        } else if dy == edge {
            RingPlace::on(ring, Side::North, -dx)
        } else if dx == -edge {
            RingPlace::on(ring, Side::West, -dy)
        } else {
            RingPlace::on(ring, Side::South, dx)
        }
    }

    /// The place on a side where the distance that grows along the side is `along`, which runs from
    /// `1 - ring` to `ring`.
    fn on(ring: u64, side: Side, along: i64) -> Self
        requires in_range { ring < 2 ^ 24 }
        requires low { neg_ℤ (pos ring) <ℤ along }
        requires high { along ≤ℤ pos ring }
        ensures ring { result.ring ≡ ring }
        ensures side { result.side ≡ side }
        ensures step { pos (result.step + 1) ≡ along +ℤ pos ring }
    {
        let step = (along + ring as i64 - 1) as u64;
        RingPlace { ring, side, step }
    }

    /// The movement at this place.
    pub(crate) fn movement(self) -> (i64, i64)
        ensures { result ≡ move_at self.ring self.side self.step }
    {
        let edge = self.ring as i64;
        let along = self.step as i64 + 1 - edge;
        match self.side {
            Side::East => (edge, along),
            Side::North => (-along, edge),
            Side::West => (-edge, -along),
            Side::South => (along, -edge),
        }
    }

    /// The place that has this code.
    pub(crate) fn from_code(code: u64) -> Self
        requires moving { 0 < code }
        requires in_range { code < square (2 ^ 25 - 1) }
        ensures { move_at result.ring result.side result.step ≡ move_of code }
    {
        let ring = ring(code);
        let place_in_ring = code - first_code(ring);
        let side = Side::nth(place_in_ring / (2 * ring));
        let step = place_in_ring % (2 * ring);
        RingPlace { ring, side, step }
    }

    /// The code of this place.
    pub(crate) fn code(self) -> u64
        ensures { let m = move_at self.ring self.side self.step in result ≡ code_of m.0 m.1 }
    {
        let place_in_ring = self.side.number() * (2 * self.ring) + self.step;
        first_code(self.ring) + place_in_ring
    }
}
