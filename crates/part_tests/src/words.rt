use std::alloc::Global;
use track_types::Memory;

// The numbers that words between spaces spell. What spells none is 0.
pub fn numbers_of(alloc: Global, words: &str) -> Result<Vec<u32>, Memory> {
    let numbers = words
        .split(' ')
        .filter(|word| !word.is_empty())
        .map(|word| word.parse::<u32>().unwrap_or(0))
        .collect(alloc)?;
    Ok(numbers)
}
