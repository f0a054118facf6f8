ghost use Rattle.std.specs.Prelude.{◌≡◌, ◌+◌, ◌-◌, ◌<◌, ◌≤◌, length, take, drop};
ghost use Rattle.packed_bits.specs.Bits.{ones_of};
ghost use Rattle.k2_tree.specs.Groups.{upper_in};
ghost use Rattle.track_types.specs.declared.limit.TheConstants.{MAX_TREE};

use track_types::BitList;

// The most bits of a word that are counted at a time.
const PART: u32 = 32;

/// How many squares of a tree's bits are split in sixteen: those of its `wide` upper levels. The other
/// levels are not looked at. No memory is taken.
pub fn upper_of(bits: &BitList, wide: u32) -> u32
    requires { length bits.now ≤ MAX_TREE }
    ensures none { length bits.now ≡ 0 → result ≡ 0 }
    ensures some { 0 < length bits.now → result ≡ upper_in wide 1 bits.now }
{
    if bits.len() == 0 {
        return 0;
    }
    let mut upper = 0;
    let mut start = 0;
    let mut groups: u32 = 1;
    for _ in 0..wide {
        let size = groups.saturating_mul(16).min(bits.len() - start);
        upper += groups;
        groups = ones_within(bits, start, start + size);
        start += size;
    }
    upper
}

/// How many of the bits from a place up to another are ones.
pub fn ones_within(bits: &BitList, from: u32, to: u32) -> u32
    requires ordered { from ≤ to }
    requires within { to ≤ length bits.now }
    requires few { length bits.now ≤ MAX_TREE }
    ensures { result ≡ ones_of (take (to - from) (drop from bits.now)) }
{
    let mut ones = 0;
    let mut place = from;
    while place < to {
        let skipped = place % PART;
        let size = (PART - skipped).min(to - place);
        let part = (bits.word(place / 64) >> (place % 64)) % (1 << size);
        ones += part.count_ones();
        place += size;
    }
    ones
}
