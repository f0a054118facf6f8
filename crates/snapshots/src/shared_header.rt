ghost use Rattle.std.specs.Prelude.{◌≡◌, IfOk};
ghost use Rattle.track_types.specs.Frame.{IsFrame};
ghost use Rattle.snapshots.specs.View.{tree_without};

use k2_tree::K2Tree;
use std::alloc::Global;
use std::marker::Model;
use std::rc::Rc;
use track_types::{Frame, Memory};

/// The header of an index as its snapshots keep it: once for all of them, with the tree of no cell
/// for those in whose periods no object has a block.
///
/// Contracts see the header.
#[derive(Drop)]
pub struct SharedHeader {
    frame: Frame,
    no_cells: K2Tree,
}

impl Model for SharedHeader {
    ghost use Rattle.std.specs.Prelude.{◌≡◌};
    ghost use Rattle.track_types.specs.declared.frame.Frame.{Frame};
    ghost use Rattle.snapshots.specs.View.{tree_without};

    ghost Value = { Frame };

    ghost view = { λ h. h.frame };

    ghost invariant = { λ h. h.no_cells ≡ tree_without h.frame };
}

impl SharedHeader {
    /// Keeps a header, which is in its ranges.
    pub fn new(alloc: Global, frame: &Frame) -> Result<Rc<SharedHeader>, Memory>
        requires { IsFrame frame.now }
        ensures { IfOk result (λ header. header.value ≡ frame.now) }
    {
        let no_cells = K2Tree::build(alloc, &[], frame.height, frame.wide_levels(), frame.base)?;
        let header = SharedHeader {
            frame: *frame,
            no_cells,
        };
        Ok(Rc::new(alloc, header)?)
    }

    /// The header itself.
    pub fn frame(&self) -> &Frame
        ensures { result.now ≡ self.now }
    {
        &self.frame
    }

    /// The tree of no cell, of the header's height, levels and base.
    pub fn no_cells(&self) -> &K2Tree
        ensures { result.now ≡ tree_without self.now }
    {
        &self.no_cells
    }
}
