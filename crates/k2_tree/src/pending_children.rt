ghost use Rattle.std.specs.Prelude.{◌≡◌, ◌+◌, ◌^◌, ◌<◌, ◌≤◌, length};
ghost use Rattle.k2_tree.specs.Widths.{fan_of};
ghost use Rattle.k2_tree.specs.Areas.{IsBoxInside};
ghost use Rattle.k2_tree.specs.TreeSquares.{area_of, level_of};
ghost use Rattle.k2_tree.specs.Digits.{digits_of};

use crate::square::Square;

/// The children of a square that are still to be visited.
#[derive(Clone, Copy)]
pub struct PendingChildren {
    square: Square,
    // The width of their level.
    width: u32,
    // A bit for each child, the first child's lowest, where it holds a cell and is still to come.
    digits: u32,
    // The number of the next of them. The others have the numbers after it.
    number: u32,
    ghost some: { 1 ≤ width },
    ghost narrow: { width ≤ 2 },
    ghost inner: { width ≤ level_of square },
    ghost few: { digits < 2 ^ fan_of width },
    ghost room: { number + length (digits_of (fan_of width) digits) < 2 ^ 32 },
}

impl Default for PendingChildren {
    // None, as in the unused places of a stack.
    fn default() -> Self {
        PendingChildren::new(Square::default(), 1, 0, 0)
    }
}

impl PendingChildren {
    ghost use Rattle.std.specs.Prelude.{[], IfNone, IfSome};
    ghost use Rattle.k2_tree.specs.PendingChildren.{nodes_of, IsNextOf};

    /// The children of a square that is no cell: those whose bits are set, by the width of their
    /// level, with numbers from this one on. Only bits below the level's fan may be set, and all of
    /// the numbers fit 32 bits.
    pub fn new(square: Square, width: u32, digits: u32, number: u32) -> PendingChildren
        requires some { 1 ≤ width }
        requires narrow { width ≤ 2 }
        requires inner { width ≤ level_of square }
        requires few { digits < 2 ^ fan_of width }
        requires room { number + length (digits_of (fan_of width) digits) < 2 ^ 32 }
        ensures square { result.square ≡ square }
        ensures width { result.width ≡ width }
        ensures digits { result.digits ≡ digits }
        ensures number { result.number ≡ number }
    {
        PendingChildren {
            square,
            width,
            digits,
            number,
        }
    }

    /// Takes the next child off and answers it.
    pub fn next(&mut self) -> Option<Square>
        ensures none { IfNone result (nodes_of self.old ≡ []) }
        ensures found { IfSome result (λ child. IsNextOf self.old child self.new) }
        ensures inside { IfSome result (λ child.
            IsBoxInside (area_of child) (area_of self.old.square)) }
        ensures square { self.new.square ≡ self.old.square }
    {
        if self.digits == 0 {
            return None;
        }
        let child = self
            .square
            .child(self.width, self.digits.trailing_zeros(), self.number);
        self.digits &= self.digits - 1;
        self.number += 1;
        Some(child)
    }
}
