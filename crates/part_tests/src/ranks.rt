ghost use Rattle.std.specs.Prelude.{◌≡◌, ◌<◌};

use bit_rank::{Bits, Steps};
use packed_bits::BitList;
use std::alloc::{AllocError, Global};
use std::marker::Brand;
use std::mem::size_of;
use std::sync::ledger::{Blank, Ledger};
use std::test::Fail;

// The bits 1 and 3 of four.
fn answers_on_four_bits<L: Ledger>(host: &HostRuntime, bits: &Bits, blank: Blank) -> bool
    requires name { blank.name ≡ L.name }
    requires parts { blank.parts ≡ L.parts }
    requires some { 0 < L.parts }
{
    let mut steps = Steps::<L>::new(host, blank);
    if bits.len() != 4 || bits.ones() != 2 {
        return false;
    }
    let ranks = (bits.rank1(3, &mut steps), bits.rank1(4, &mut steps));
    let places = (bits.select1(1, &mut steps), bits.select1(2, &mut steps));
    let read = (bits.get(2, &mut steps), bits.get(3, &mut steps));
    let window = bits.window(1, 3, &mut steps);
    ranks == (1, 2) && places == (1, 3) && read == (false, true) && window == 5
}

#[test]
fn the_lowest_bit_is_the_first(rt: HostRuntime) -> Result<(), Fail> {
    let bits = Bits::from_words(rt.alloc(), vec![in rt.alloc(); 10]?, 4)?;
    assert!(rt;
        answers_on_four_bits::<Brand>(&rt, &bits, Blank::new(1)),
        "answers"
    );
    assert!(rt; bits.into_words().as_slice() == [10].as_slice(), "words");
    assert!(rt; size_of::<Bits>() == 48, "bytes");
    Ok(())
}

// Whether a place has this bit, and so many ones before it.
fn is_at<L: Ledger>(bits: &Bits, place: u32, bit: bool, ones: u32, steps: &mut Steps<L>) -> bool {
    if place >= bits.len() {
        return false;
    }
    bits.rank1(place, steps) == ones && bits.get(place, steps) == bit
}

// Whether the one with this number, from 1 on, stands at a place.
fn is_one_at<L: Ledger>(bits: &Bits, place: u32, one: u32, steps: &mut Steps<L>) -> bool {
    if place >= bits.len() || one < 1 || one > bits.ones() {
        return false;
    }
    bits.select1(one, steps) == place && bits.window(place, 1, steps) == 1
}

// Whether every rank and every place of a one is what a scan of the plain bits finds.
fn agrees<L: Ledger>(host: &HostRuntime, bits: &Bits, plain: &[bool], blank: Blank) -> bool
    requires name { blank.name ≡ L.name }
    requires parts { blank.parts ≡ L.parts }
    requires some { 0 < L.parts }
{
    let mut steps = Steps::<L>::new(host, blank);
    let mut ones = 0u32;
    let mut place = 0u32;
    for bit in plain {
        if !is_at(bits, place, *bit, ones, &mut steps) {
            return false;
        }
        if *bit {
            ones = ones.wrapping_add(1);
            if !is_one_at(bits, place, ones, &mut steps) {
                return false;
            }
        }
        place = place.wrapping_add(1);
    }
    bits.len() == place && bits.rank1(bits.len(), &mut steps) == ones && bits.ones() == ones
}

// Whether a directory over fewer than a million bits answers as a scan does, and gives the bits back.
fn is_scanned(host: &HostRuntime, plain: &[bool]) -> Result<bool, Fail> {
    if plain.len() > 1_000_000 {
        return Ok(false);
    }
    let alloc = host.alloc();
    let bits = Bits::from_list(alloc, BitList::pack(alloc, plain)?)?;
    let agrees = agrees::<Brand>(host, &bits, plain, Blank::new(1));
    Ok(agrees && bits.into_list().len() as usize == plain.len())
}

// Zeros before so many ones, and zeros after them.
fn run(alloc: Global, before: usize, ones: usize, after: usize) -> Result<Vec<bool>, AllocError> {
    let mut bits = Vec::new(alloc);
    for (bit, count) in [(false, before), (true, ones), (false, after)] {
        for _ in 0..count {
            bits.push(bit)?;
        }
    }
    Ok(bits)
}

// How many zeros, ones and zeros.
const EDGES: [(usize, usize, usize); 8] = [
    (0, 0, 0),
    (63, 2, 0),
    (600, 0, 0),
    (0, 512, 0),
    (0, 513, 0),
    (0, 512, 512),
    (511, 1026, 511),
    (5000, 1, 3000),
];

#[test]
fn ranks_and_places_match_a_scan(rt: HostRuntime) -> Result<(), Fail> {
    for (before, ones, after) in EDGES {
        let bits = run(rt.alloc(), before, ones, after)?;
        assert!(rt;
            is_scanned(&rt, bits.as_slice())?,
            "{before} {ones} {after}"
        );
    }
    Ok(())
}

// Of 200,000 bits the first half is random, then each thousandth is a one, and the last 80,000 are
// ones.
fn many_bits(alloc: Global) -> Result<Vec<bool>, AllocError> {
    let mut bits = Vec::new(alloc);
    let mut state = 88_172_645_463_325_252u64;
    for i in 0..200_000u32 {
        state ^= state << 13;
        state ^= state >> 7;
        state ^= state << 17;
        let bit = match i {
            0..100_000 => state >> 63 == 1,
            100_000..120_000 => i % 1000 == 0,
            _ => true,
        };
        bits.push(bit)?;
    }
    Ok(bits)
}

#[test]
fn a_hundred_thousand_ones_match_a_scan(rt: HostRuntime) -> Result<(), Fail> {
    let bits = many_bits(rt.alloc())?;
    assert!(rt; is_scanned(&rt, bits.as_slice())?);
    Ok(())
}
