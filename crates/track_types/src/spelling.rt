ghost use Rattle.std.specs.Prelude.{◌≡◌};
ghost use Rattle.track_types.specs.Spelling.{greatest_height, holds_parts, packs_symbols, spelling_of, wide_levels};

use crate::limit::{MAX_HEIGHT, MAX_NARROW_HEIGHT};

/// How a version of the format writes an index file. All in which the versions differ is asked of it,
/// and `docs/FORMAT.md` has the bytes of each.
#[derive(Clone, Copy, Debug, PartialEq, Eq)]
pub enum Spelling {
    /// Version 1: the parts of an index, list by list. A symbol takes four bytes, and each level of a
    /// period's tree splits a square in four.
    Parts,
    /// Version 2: the parts of an index. A symbol takes as few bits as tell all symbols apart, and the
    /// upper levels of a tree split a square in sixteen.
    PackedParts,
    /// Version 3: the outline of an index, from which its parts follow, as one string of bits. Symbols
    /// and trees are those of version 2.
    Outline,
}

impl Spelling {
    /// How a version writes. There is none below 1 and none above `MAX_VERSION`: a number below is
    /// taken for the first version, and one above for the newest.
    #[tactic(auto, using(crate::proofs::SpellingLemmas::spelling_by_tests))]
    pub fn of(version: u32) -> Spelling
        ensures { result ≡ spelling_of version }
    {
        if version < 2 {
            Spelling::Parts
        } else if version < 3 {
            Spelling::PackedParts
        } else {
            Spelling::Outline
        }
    }

    /// Whether a file holds the parts of an index as they are. Then its header says how many symbols
    /// the logs have. Else the file holds an outline, whose blocks tell it.
    pub fn holds_parts(self) -> bool
        ensures { result ≡ holds_parts self }
    {
        match self {
            Spelling::Parts | Spelling::PackedParts => true,
            Spelling::Outline => false,
        }
    }

    /// Whether a symbol takes as few bits as tell all symbols apart, and not four bytes.
    pub fn packs_symbols(self) -> bool
        ensures { result ≡ packs_symbols self }
    {
        match self {
            Spelling::Parts => false,
            Spelling::PackedParts | Spelling::Outline => true,
        }
    }

    /// How many levels of a tree of that height, from the top, split a square in sixteen. The others
    /// split it in four.
    pub fn wide_levels(self, height: u32) -> u32
        ensures { result ≡ wide_levels self height }
    {
        match self {
            Spelling::Parts => 0,
            Spelling::PackedParts | Spelling::Outline => height / 4,
        }
    }

    /// The greatest height of a tree.
    pub fn greatest_height(self) -> u32
        ensures { result ≡ greatest_height self }
    {
        match self {
            Spelling::Parts => MAX_NARROW_HEIGHT,
            Spelling::PackedParts | Spelling::Outline => MAX_HEIGHT,
        }
    }
}
