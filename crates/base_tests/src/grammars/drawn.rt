ghost use Rattle.std.specs.Prelude.{◌<◌};

use std::alloc::Global;
use track_types::Memory;

// Numbers that look random: the linear congruential generator of the C standard's example.
#[derive(Drop)]
pub struct Random {
    state: u64,
}

impl Random {
    pub fn new() -> Random {
        Random { state: 1 }
    }

    // The next number below a limit.
    pub fn below(&mut self, limit: u32) -> u32
        requires { 0 < limit }
        ensures { result < limit }
    {
        self.state = self.state.wrapping_mul(1103515245).wrapping_add(12345) % (1 << 31);
        ((self.state >> 8) % u64::from(limit)) as u32
    }

    // A list of symbols, in which each stays for three places on average.
    pub fn list(&mut self, alloc: Global, alphabet: u32, len: u32) -> Result<Vec<u32>, Memory>
        requires { 0 < alphabet }
    {
        let mut list = Vec::new(alloc);
        let mut symbol = 0;
        for _ in 0..len {
            if self.below(3) == 0 {
                symbol = self.below(alphabet);
            }
            list.push(symbol)?;
        }
        Ok(list)
    }

    // Up to three lists of less than so many symbols each.
    pub fn lists(&mut self, alloc: Global, alphabet: u32, len: u32) -> Result<Vec<Vec<u32>>, Memory>
        requires symbols { 0 < alphabet }
        requires some { 0 < len }
    {
        let mut lists = Vec::new(alloc);
        for _ in 0..self.below(4) {
            let len = self.below(len);
            lists.push(self.list(alloc, alphabet, len)?)?;
        }
        Ok(lists)
    }
}
