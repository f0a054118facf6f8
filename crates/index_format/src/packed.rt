ghost use Rattle.std.specs.Prelude.{◌≡◌, ◌≤◌, ◌+◌, ◌/◌, length, true, IfOk};
ghost use Rattle.packed_bits.specs.Bits.{number_of, ones_of};
ghost use Rattle.packed_bits.specs.Words.{bits_of};
ghost use Rattle.index_format.specs.Answers.{Gives};
ghost use Rattle.index_format.specs.Fields.{has_spare, bits_at};
ghost use Rattle.index_format.specs.Spelling.{bits_in, bytes_for};

use crate::fields::word_of;
use crate::place::Place;
use std::alloc::{AllocError, Global};
use track_types::{BitList, FormatFault, Kind};

/// So many bits, and the bytes after the last one that they fill. Memory is taken only where the
/// bytes hold them.
#[tactic(auto, unfolding(crate::specs::Fields::bits_at))]
pub fn bits_of(
    alloc: Global,
    place: Place,
    count: u32,
    bytes: &[u8],
) -> Result<(BitList, &[u8]), FormatFault>
    ensures { Gives (λ x. (x.0, x.1.now)) result (bits_at place.section place.period count bytes.now) }
{
    let len = (count as usize).div_ceil(8);
    if bytes.len() < len {
        return Err(FormatFault::Flaw(place.flaw(bytes.len(), Kind::Short)));
    }
    let (front, rest) = bytes.split_at(len);
    if has_spare(count, front) {
        return Err(FormatFault::Flaw(place.flaw(len - 1, Kind::Pad)));
    }
    Ok((BitList::new(words_of(alloc, front)?, count), rest))
}

/// How many bits of the list are 1.
pub fn ones_in(bits: &BitList) -> u32
    ensures { result ≡ ones_of bits.now }
{
    let mut ones = 0;
    for i in 0..bits.len().div_ceil(64) {
        ones += bits.word(i).count_ones();
    }
    ones
}

/// Whether a bit of the last byte past the first `count` bits is 1.
fn has_spare(count: u32, bytes: &[u8]) -> bool
    requires { length bytes.now ≡ bytes_for count }
    ensures exact { result ≡ has_spare count bytes.now }
    ensures some { result ≡ true → 1 ≤ length bytes.now }
{
    let used = count % 8;
    used > 0 && bytes[count as usize / 8] >> used > 0
}

/// The words that the bytes fill, lowest first; past the last byte all is 0.
fn words_of(alloc: Global, bytes: &[u8]) -> Result<Vec<u64>, AllocError>
    ensures len { IfOk result (λ words. length words.items ≡ (length bytes.now + 7) / 8) }
    ensures bits { IfOk result (λ words. number_of (bits_of words.items) ≡ number_of (bits_in bytes.now)) }
{
    let mut words = Vec::with_capacity(alloc, bytes.len().div_ceil(8))?;
    let mut rest = bytes;
    while rest.len() >= 8 {
        let (front, after) = rest.split_at(8);
        words.push(word_of(front))?;
        rest = after;
    }
    if rest.is_empty() {
        return Ok(words);
    }
    words.push(last_word_of(rest))?;
    Ok(words)
}

/// The word that fewer than eight bytes fill.
fn last_word_of(bytes: &[u8]) -> u64
    requires { length bytes.now ≤ 7 }
    ensures { result ≡ number_of (bits_in bytes.now) }
{
    let mut word = 0;
    for i in 0..bytes.len() {
        word += u64::from(bytes[i]) << (8 * i);
    }
    word
}
