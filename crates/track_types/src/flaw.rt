ghost use Rattle.std.specs.Prelude.{◌≡◌};
ghost use Rattle.track_types.specs.FlawText.{kind_name, section_name};

use std::error::Error;
use std::fmt::{self, Display, Formatter, Write};

/// Where an index is not of its format, and how.
#[derive(Clone, Copy, Debug, PartialEq, Eq)]
pub struct Flaw {
    /// The section in which it is.
    pub section: Section,
    /// The period, from 0. Outside the sections of periods it is 0, but for `OffGrid`: that has the
    /// period of its block, though it is in section `Log`.
    pub period: u32,
    /// The element of the section, in its period, from 0. In sections of bits it is a byte. Some
    /// kinds count otherwise, and say how.
    pub index: u64,
    /// How it is not of the format.
    pub kind: Kind,
}

/// A section of an index, in the order of the file.
#[derive(Clone, Copy, Debug, PartialEq, Eq)]
pub enum Section {
    Header,
    Objects,
    Alphabet,
    /// How many rules each layer of a grammar has.
    Layers,
    Rules,
    /// When the first block of each object begins.
    Starts,
    /// How far each further block of an object is from the end of the period before.
    Gaps,
    /// The cells of the blocks' anchors.
    Anchors,
    Presence,
    Offsets,
    TreeLen,
    Tree,
    Lasts,
    Perm,
    Lengths,
    Log,
    End,
}

/// How an element of an index is not of the format.
#[derive(Clone, Copy, Debug, PartialEq, Eq)]
pub enum Kind {
    /// The bytes end before it does.
    Short,
    /// The first bytes are not those of the format.
    Magic,
    /// A number is out of its range.
    Field,
    /// A number has more digits than any of the format.
    Large,
    /// It is not greater than the one before it.
    Order,
    /// A spare bit is 1.
    Pad,
    /// A byte follows the end.
    Extra,
    /// A movement is longer than the grid is wide.
    Code,
    /// A rule has a part that is not below it, or lasts or reaches too far.
    Rule,
    /// A symbol is neither a terminal nor a rule.
    Symbol,
    /// The lengths of all blocks do not add up to the log's length. Its place is the last period's
    /// first length.
    Total,
    /// An anchor is after its period's end.
    Offset,
    /// Bits are those of no tree. The index is that of a bit.
    Tree,
    /// The last objects of cells do not fit the tree's leaves. The index is how many objects are
    /// present.
    Cells,
    /// A list is no permutation.
    Perm,
    /// The objects of a cell do not ascend.
    CellOrder,
    /// A block leaves the grid. The index is that of an entry among all symbols.
    OffGrid,
    /// A block does not last to its period's end.
    Duration,
}

impl Section {
    /// The section's name in texts, in lower case.
    pub fn name(self) -> &'static str
        ensures { result.now ≡ section_name self }
    {
        match self {
            Section::Header => "header",
            Section::Objects => "objects",
            Section::Alphabet => "alphabet",
            Section::Layers => "layers",
            Section::Rules => "rules",
            Section::Starts => "starts",
            Section::Gaps => "gaps",
            Section::Anchors => "anchors",
            Section::Presence => "presence",
            Section::Offsets => "offsets",
            Section::TreeLen => "treelen",
            Section::Tree => "tree",
            Section::Lasts => "lasts",
            Section::Perm => "perm",
            Section::Lengths => "lengths",
            Section::Log => "log",
            Section::End => "end",
        }
    }
}

impl Kind {
    /// The kind's name in texts, in lower case.
    pub fn name(self) -> &'static str
        ensures { result.now ≡ kind_name self }
    {
        match self {
            Kind::Short => "short",
            Kind::Magic => "magic",
            Kind::Field => "field",
            Kind::Large => "large",
            Kind::Order => "order",
            Kind::Pad => "pad",
            Kind::Extra => "extra",
            Kind::Code => "code",
            Kind::Rule => "rule",
            Kind::Symbol => "symbol",
            Kind::Total => "total",
            Kind::Offset => "offset",
            Kind::Tree => "tree",
            Kind::Cells => "cells",
            Kind::Perm => "perm",
            Kind::CellOrder => "cellorder",
            Kind::OffGrid => "offgrid",
            Kind::Duration => "duration",
        }
    }
}

impl Display for Flaw {
    ghost use Rattle.std.specs.Prelude.{Some};
    ghost use Rattle.track_types.specs.FlawText.{flaw_text};

    ghost output = { λ flaw. Some (flaw_text flaw) };

    fn fmt<W: Write>(&self, f: &mut Formatter<W>) -> fmt::Result {
        let section = self.section.name();
        let kind = self.kind.name();
        write!(
            f,
            "index {section} period {} place {}: {kind}",
            self.period, self.index
        )
    }
}

impl Error for Flaw {}
