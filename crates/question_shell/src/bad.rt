/// What is wrong with a question line: the first cause. Its length is judged first, then its first
/// word, how a region's words are laid out, the number of words, and the number words from the left.
#[derive(Clone, Copy, Debug, PartialEq, Eq)]
pub enum Bad {
    /// The line has a word, and more than 1,024 bytes.
    Long,
    /// The first word names no question, or a word of a region that should name a shape does not.
    Word,
    /// The question has another number of words.
    Count,
    /// The word at this place of the line, counted from 1, is no numeral.
    Number(u32),
    /// The word at this place is a numeral out of its range.
    Range(u32),
}
