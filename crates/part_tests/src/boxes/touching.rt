ghost use Rattle.track_types.specs.Boxes.{touches};

use box_tree::Search;
use track_types::CellBox;

// The places whose cell lies in one box and whose box touches another.
#[derive(Drop, Clone, Copy)]
pub struct Touching {
    pub square: CellBox,
    pub area: CellBox,
}

impl Search for Touching {
    ghost use Rattle.box_tree.specs.Touching.{touching-monotone};

    ghost squares = { λ t. touches t.square };

    ghost boxes = { λ t. touches t.area };

    ghost monotone = { λ t. touching-monotone t.square t.area };

    fn meets_square(&self, area: &CellBox) -> bool {
        self.square.meets(area)
    }

    fn meets_box(&self, area: &CellBox) -> bool {
        self.area.meets(area)
    }
}
