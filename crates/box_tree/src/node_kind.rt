ghost use Rattle.std.specs.Prelude.{◌≡◌};
ghost use Rattle.box_tree.specs.NodeKinds.{link_kind};

/// What a node is. A bucket has the places from `low` on and before `high`. A branch has children
/// that stand one after another before `end`, one for each digit of the mask.
#[derive(Clone, Copy, Debug)]
pub enum NodeKind {
    Bucket { low: u32, high: u32 },
    Branch { end: u32, mask: u32 },
}

// The most places of a bucket, unless its square is a cell.
pub(crate) const BUCKET_LIMIT: u32 = 16;

// The second number of a link is a bucket's end plus this, or a branch's mask.
pub(crate) const BUCKET: u32 = 1 << 31;

// The kind that a link stands for.
pub(crate) fn kind_of(link: (u32, u32)) -> NodeKind
    ensures { result ≡ link_kind link }
{
    if link.1 < BUCKET {
        NodeKind::Branch {
            end: link.0,
            mask: link.1,
        }
    } else {
        NodeKind::Bucket {
            low: link.0,
            high: link.1 - BUCKET,
        }
    }
}
