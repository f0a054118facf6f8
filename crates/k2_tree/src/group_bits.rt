ghost use Rattle.std.specs.Prelude.{◌≡◌, ◌+◌, ◌*◌, ◌%◌, ◌^◌, ◌<◌, ◌≤◌, ◌++◌, [], length, IfOk, OnOk};
ghost use Rattle.packed_bits.specs.Words.{bits_of, low_bits};
ghost use Rattle.k2_tree.specs.Building.{IsLast};

use std::alloc::{AllocError, Global};
use std::marker::Model;
use track_types::BitList;

/// Groups of bits on their way into a list. Contracts see all that were pushed.
#[derive(Debug, Drop)]
pub struct GroupBits {
    // The words before the last.
    words: Vec<u64>,
    // The bits of the last word as a number, lowest first.
    last: u64,
    // How many they are.
    filled: u32,
}

impl Model for GroupBits {
    ghost use Rattle.std.specs.Prelude.{Bool, List, ◌++◌};
    ghost use Rattle.packed_bits.specs.Words.{bits_of, low_bits};
    ghost use Rattle.k2_tree.specs.Building.{IsLast};

    ghost Value = { List Bool };

    ghost view = { λ groups. bits_of groups.words.items ++ low_bits groups.filled groups.last };

    ghost invariant = { λ groups. IsLast groups.last groups.filled };
}

impl GroupBits {
    /// No bits. It takes no memory.
    pub fn new(alloc: Global) -> GroupBits
        ensures { result ≡ [] }
    {
        GroupBits {
            words: Vec::new(alloc),
            last: 0,
            filled: 0,
        }
    }

    /// Pushes a group of `fan` bits, lowest first. No group goes on in another word.
    pub fn push(&mut self, group: u64, fan: u32) -> Result<(), AllocError>
        requires fits { length self.old % 64 + fan ≤ 64 }
        requires small { group < 2 ^ fan }
        ensures ok { OnOk result (self.new ≡ self.old ++ low_bits fan group) }
    {
        if self.filled == 64 {
            self.words.push(self.last)?;
            self.last = group;
            self.filled = fan;
        } else {
            self.last += group << self.filled;
            self.filled += fan;
        }
        Ok(())
    }

    /// The number of bits, which is below 2^32.
    pub fn len(&self) -> u32
        requires { length self.now < 2 ^ 32 }
        ensures { result ≡ length self.now }
    {
        64 * self.words.len() as u32 + self.filled
    }

    /// The bits as a list, where they are fewer than 2^32.
    pub fn into_list(self) -> Result<BitList, AllocError>
        requires { length self < 2 ^ 32 }
        ensures ok { IfOk result (λ list. list ≡ self) }
    {
        listed(self.words, self.last, self.filled)
    }
}

// The list of the bits of these words and of the last one.
fn listed(mut words: Vec<u64>, last: u64, filled: u32) -> Result<BitList, AllocError>
    requires last { IsLast last filled }
    requires few { 64 * length words.items + filled < 2 ^ 32 }
    ensures ok { IfOk result (λ list. list ≡ bits_of words.items ++ low_bits filled last) }
{
    let len = 64 * words.len() as u32 + filled;
    if filled > 0 {
        words.push(last)?;
    }
    Ok(BitList::new(words, len))
}
