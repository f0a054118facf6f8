use gract_top::Outcome;
use std::alloc::Global;
use std::env::FillError;
use std::rt::Env;

/// How many bytes a word's buffer has at first; it is doubled until the word fits.
const SHORT_WORD: usize = 256;

/// How often a buffer is doubled at most.
const DOUBLINGS: u32 = 24;

/// The words after the program's name.
///
/// A word that is not UTF-8 is a faulty command line: it is refused by its place, as `Outcome::Words`.
pub fn command_words<R: Env + AllocGlobal>(rt: &R) -> Result<Vec<String>, Outcome> {
    let mut words = Vec::new(rt.alloc());
    for place in 1..u32::MAX {
        let Some(bytes) = read_word(rt, place as usize)? else {
            break;
        };
        let Ok(word) = String::from_utf8(bytes) else {
            return Err(Outcome::Words { place });
        };
        if words.push(word).is_err() {
            return Err(Outcome::Memory);
        }
    }
    Ok(words)
}

/// The words, each as a text.
pub fn texts_of(alloc: Global, words: &[String]) -> Result<Vec<&str>, Outcome> {
    words
        .iter()
        .map(|word| word.as_str())
        .collect::<Vec<&str>>(alloc)
        .map_err(|_| Outcome::Memory)
}

// The bytes of the word at a place, if there is one.
fn read_word<R: Env + AllocGlobal>(rt: &R, place: usize) -> Result<Option<Vec<u8>>, Outcome> {
    let mut size = SHORT_WORD;
    for _ in 0..DOUBLINGS {
        let Ok(mut bytes) = vec![in rt.alloc(); 0u8; size] else {
            return Err(Outcome::Memory);
        };
        match rt.arg(place, &mut bytes) {
            Ok(length) => {
                bytes.truncate(length);
                return Ok(Some(bytes));
            }
            Err(FillError::NotPresent) => return Ok(None),
            Err(FillError::TooLong) => size = size.saturating_mul(2),
        }
    }
    Err(Outcome::Memory)
}
