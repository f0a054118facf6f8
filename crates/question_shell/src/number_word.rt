ghost use Rattle.std.specs.Prelude.{◌≡◌, ◌<◌, ◌≤◌, ◌≤ℤ◌, IfOk, IfErr, Some, None, unsigned_abs};
ghost use Rattle.track_types.specs.Near.{IsAsked};
ghost use Rattle.question_shell.specs.NumberWords.{word_number, object_word, place_word, radius_word};
ghost use Rattle.question_shell.specs.NumberWords.{shapes_word, slot_word, word_fault};

use crate::bad::Bad;
use track_types::{MAX_ASKED, MAX_REACH, NumberFault, number_within};

// Reads an object's number, O, or a count, K or N.
pub(crate) fn read_object(word: &[u8], place: u32) -> Result<u32, Bad>
    ensures none { IfOk result (λ _. word_fault object_word place word.now ≡ None) }
    ensures value { IfOk result (λ object. object ≡ unsigned_abs (word_number word.now)) }
    ensures err { IfErr result (λ bad. word_fault object_word place word.now ≡ Some bad) }
{
    let number = read_number(word, place, 0, 0xffff_ffff)?;
    Ok(number as u32)
}

// Reads an instant, T, or a coordinate, X or Y: at most `MAX_ASKED` away from 0.
pub(crate) fn read_place(word: &[u8], place: u32) -> Result<i64, Bad>
    ensures none { IfOk result (λ _. word_fault place_word place word.now ≡ None) }
    ensures value { IfOk result (λ number. number ≡ word_number word.now) }
    ensures asked { IfOk result IsAsked }
    ensures err { IfErr result (λ bad. word_fault place_word place word.now ≡ Some bad) }
{
    read_number(word, place, -(MAX_ASKED as i64), MAX_ASKED as i64)
}

// Reads a radius, R, or a distance, D: at most `MAX_REACH`.
pub(crate) fn read_radius(word: &[u8], place: u32) -> Result<u64, Bad>
    ensures none { IfOk result (λ _. word_fault radius_word place word.now ≡ None) }
    ensures value { IfOk result (λ radius. radius ≡ unsigned_abs (word_number word.now)) }
    ensures asked { IfOk result (λ radius. radius ≤ MAX_REACH) }
    ensures err { IfErr result (λ bad. word_fault radius_word place word.now ≡ Some bad) }
{
    let number = read_number(word, place, 0, MAX_REACH as i64)?;
    Ok(number as u64)
}

// Reads a slot of the desk, S.
pub(crate) fn read_slot(word: &[u8], place: u32) -> Result<u8, Bad>
    ensures none { IfOk result (λ _. word_fault slot_word place word.now ≡ None) }
    ensures value { IfOk result (λ slot. slot ≡ unsigned_abs (word_number word.now)) }
    ensures asked { IfOk result (λ slot. slot < 16) }
    ensures err { IfErr result (λ bad. word_fault slot_word place word.now ≡ Some bad) }
{
    let number = read_number(word, place, 0, 15)?;
    Ok(number as u8)
}

// Reads how many shapes a region has, N: 1 to 16.
pub(crate) fn read_shape_count(word: &[u8], place: u32) -> Result<u32, Bad>
    ensures none { IfOk result (λ _. word_fault shapes_word place word.now ≡ None) }
    ensures value { IfOk result (λ count. count ≡ unsigned_abs (word_number word.now)) }
    ensures few { IfOk result (λ count. (1 ≤ count) × (count ≤ 16)) }
    ensures err { IfErr result (λ bad. word_fault shapes_word place word.now ≡ Some bad) }
{
    let number = read_number(word, place, 1, 16)?;
    Ok(number as u32)
}

// Reads the number word at a place of a line.
fn read_number(word: &[u8], place: u32, least: i64, greatest: i64) -> Result<i64, Bad>
    ensures none { IfOk result (λ _. word_fault (least, greatest) place word.now ≡ None) }
    ensures value { IfOk result (λ number.
        number ≡ word_number word.now) }
    ensures range { IfOk result (λ number. (least ≤ℤ number) × (number ≤ℤ greatest)) }
    ensures err { IfErr result (λ bad.
        word_fault (least, greatest) place word.now ≡ Some bad) }
{
    match number_within(word, least, greatest) {
        Ok(number) => Ok(number),
        Err(NumberFault::NotNumber) => Err(Bad::Number(place)),
        Err(NumberFault::Range) => Err(Bad::Range(place)),
    }
}
