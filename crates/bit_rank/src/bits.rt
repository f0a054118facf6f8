ghost use Rattle.std.specs.Prelude.{◌≡◌, ℕ, ◌+◌, ◌*◌, ◌^◌, ◌<◌, ◌≤◌, Some, IfOk, length, take, slice_get};
ghost use Rattle.bit_rank.specs.Bits.{rank_of, select_of, IsSelected};
ghost use Rattle.bit_rank.specs.Cost.{get_reads, window_reads, rank_reads, select_reads};
ghost use Rattle.bit_rank.specs.Directory.{HasOne};
ghost use Rattle.bit_rank.specs.declared.superblock.TheConstants.{SUPERBLOCK};
ghost use Rattle.packed_bits.specs.Bits.{ones_of, window_of, packed};
ghost use Rattle.packed_bits.specs.Words.{bits_of, IsPacked};

use crate::directory::Directory;
use crate::indexing::index;
use crate::no_room::NoRoom;
use crate::superblock::{SUPERBLOCK, WORDS};
use crate::word::{low_part, place_of_one};
use packed_bits::BitList;
use std::alloc::Global;
use std::marker::Model;
use std::sync::ledger::Ledger;
use step_count::{CountedList, Steps};

/// Up to 2^32 - 1 bits that answer rank and select in a bounded number of reads.
///
/// The bits stand in words of 64, lowest first. A directory has the number of ones before each
/// superblock of 512 bits: the first level of Jacobson's directories ("Space-efficient static trees
/// and graphs", 1989). In place of the second level the machine counts the ones of a word. For
/// select it samples the superblock of the one after each 512 ones (Clark, "Compact pat trees",
/// 1996), and searches the counts between two samples by halving.
#[derive(Drop)]
pub struct Bits {
    words: CountedList<u64>,
    directory: Directory,
    len: u32,
    ones: u32,
}

impl Model for Bits {
    ghost use Rattle.std.specs.Prelude.{List, Bool, take};
    ghost use Rattle.packed_bits.specs.Words.{bits_of};
    ghost use Rattle.bit_rank.specs.Directory.{IsBitVector};

    ghost Value = { List Bool };

    ghost view = { λ b. take b.len (bits_of b.words) };

    ghost invariant = { λ b. IsBitVector (take b.len (bits_of b.words))
        b.words b.directory b.len b.ones };
}

impl Bits {
    /// Indexes the first `len` bits of the words, in one pass that allocates the directory alone.
    /// There are no more words than hold `len` bits, and beyond these every bit is 0.
    ///
    /// Want of memory for the directory is `NoRoom`; the words are then let go.
    pub fn from_words(alloc: Global, words: Vec<u64>, len: u32) -> Result<Bits, NoRoom>
        requires { IsPacked words.items len }
        ensures ok { IfOk result (λ bits. bits ≡ take len (bits_of words.items)) }
        ensures words { IfOk result (λ bits. packed bits ≡ words.items) }
    {
        match index(alloc, words.as_slice(), len) {
            Ok((directory, ones)) => Ok(Bits {
                words: CountedList::new(words),
                directory,
                len,
                ones,
            }),
            Err(_) => Err(NoRoom),
        }
    }

    /// Indexes the bits of a list, whose words it takes over. Want of memory for the directory is
    /// `NoRoom`.
    pub fn from_list(alloc: Global, list: BitList) -> Result<Bits, NoRoom>
        ensures ok { IfOk result (λ bits. bits ≡ list) }
    {
        let len = list.len();
        Bits::from_words(alloc, list.into_words(), len)
    }

    /// The number of bits.
    pub fn len(&self) -> u32
        ensures { result ≡ length self.now }
    {
        self.len
    }

    /// The number of ones.
    pub fn ones(&self) -> u32
        ensures { result ≡ ones_of self.now }
    {
        self.ones
    }

    /// The words that the bits were made from. The `Bits` is given up, so that no word can be read
    /// uncounted while it is lent.
    pub fn into_words(self) -> Vec<u64>
        ensures { result.items ≡ packed self }
    {
        self.words.into_vec()
    }

    /// The bits as a list, which takes the words over.
    pub fn into_list(self) -> BitList
        ensures { result ≡ self }
    {
        let len = self.len;
        BitList::new(self.words.into_vec(), len)
    }

    /// The bit at place `p`.
    pub fn get<L: Ledger>(&self, p: u32, steps: &mut Steps<L>) -> bool
        requires { p < length self.now }
        ensures value { slice_get self.now p ≡ Some result }
        ensures cost { steps.new ≤ steps.old + get_reads }
    {
        self.word(p / 64, steps) >> (p % 64) & 1 == 1
    }

    /// The `n` bits from place `p` as a number, lowest first.
    pub fn window<L: Ledger>(&self, p: u32, n: u32, steps: &mut Steps<L>) -> u32
        requires narrow { n ≤ 32 }
        requires within { p + n ≤ length self.now }
        ensures value { result ≡ window_of self.now p n }
        ensures cost { steps.new ≤ steps.old + window_reads }
    {
        if n == 0 {
            return 0;
        }
        let skipped = p % 64;
        let low = self.word(p / 64, steps) >> skipped;
        let held = 64 - skipped;
        if n <= held {
            return low_part(low, n) as u32;
        }
        let high = low_part(self.word(p / 64 + 1, steps), n - held);
        (low + (high << held)) as u32
    }

    /// The number of ones before place `p`.
    pub fn rank1<L: Ledger>(&self, p: u32, steps: &mut Steps<L>) -> u32
        requires { p ≤ length self.now }
        ensures value { result ≡ rank_of self.now p }
        ensures cost { steps.new ≤ steps.old + rank_reads }
    {
        if p == self.len {
            return self.ones;
        }
        let mut count = self.count_before(p / SUPERBLOCK, steps);
        for i in p / SUPERBLOCK * WORDS..p / 64 {
            count += self.word(i, steps).count_ones();
        }
        if p % 64 > 0 {
            count += low_part(self.word(p / 64, steps), p % 64).count_ones();
        }
        count
    }

    /// The place of the `j`-th one, with `j` from 1.
    pub fn select1<L: Ledger>(&self, j: u32, steps: &mut Steps<L>) -> u32
        requires from_one { 1 ≤ j }
        requires enough { j ≤ ones_of self.now }
        ensures value { result ≡ select_of self.now j }
        ensures place { IsSelected self.now j result }
        ensures cost { steps.new ≤ steps.old + select_reads }
    {
        let superblock = self.superblock_of(j, steps);
        let mut rest = j - self.count_before(superblock, steps);
        let mut i = superblock * WORDS;
        let mut word = self.word(i, steps);
        while word.count_ones() < rest {
            rest -= word.count_ones();
            i += 1;
            word = self.word(i, steps);
        }
        i * 64 + place_of_one(word, rest)
    }

    // The superblock of the `j`-th one, by halving those between two samples.
    fn superblock_of<L: Ledger>(&self, j: u32, steps: &mut Steps<L>) -> u32
        requires from_one { 1 ≤ j }
        requires enough { j ≤ ones_of self.now }
        ensures one { HasOne self.now j result }
        ensures within { SUPERBLOCK * result < length self.now }
        ensures small { length self.now < 2 ^ 32 }
        ensures cost { steps.new ≤ steps.old + 25 }
    {
        let (mut low, mut high) = self.superblocks_around(j, steps);
        while high - low > 1 {
            let middle = low + (high - low) / 2;
            if self.count_before(middle, steps) < j {
                low = middle;
            } else {
                high = middle;
            }
        }
        low
    }

    // The superblocks among which the `j`-th one is, by the samples before and after it: the first
    // of them, and the one after the last.
    fn superblocks_around<L: Ledger>(&self, j: u32, steps: &mut Steps<L>) -> (u32, u32)
        requires from_one { 1 ≤ j }
        requires enough { j ≤ ones_of self.now }
        ensures before { rank_of self.now (SUPERBLOCK * result.0) < j }
        ensures reached { j ≤ rank_of self.now (SUPERBLOCK * result.1) }
        ensures within { SUPERBLOCK * result.1 < length self.now + SUPERBLOCK }
        ensures small { length self.now < 2 ^ 32 }
        ensures cost { steps.new ≤ steps.old + 2 }
    {
        let sample = (j - 1) / SUPERBLOCK;
        let low = self.directory.sample(sample, steps);
        if self.directory.samples() == sample as usize {
            return (low, self.len.div_ceil(SUPERBLOCK));
        }
        (low, self.directory.sample(sample + 1, steps) + 1)
    }

    // Reads a word.
    fn word<L: Ledger>(&self, i: u32, steps: &mut Steps<L>) -> u64
        requires { 64 * i < length self.now }
        ensures value { result ≡ window_of self.now (64 * i) 64 }
        ensures cost { steps.new ≡ steps.old + 1 }
    {
        self.words.at(i as usize, steps)
    }

    // The number of ones before a superblock, by at most one read of the directory.
    fn count_before<L: Ledger>(&self, superblock: u32, steps: &mut Steps<L>) -> u32
        requires { SUPERBLOCK * superblock < length self.now }
        ensures value { result ≡ rank_of self.now (SUPERBLOCK * superblock) }
        ensures cost { steps.new ≤ steps.old + 1 }
    {
        self.directory.count_before(superblock, steps)
    }
}
