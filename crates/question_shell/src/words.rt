ghost use Rattle.std.specs.Prelude.{◌≡◌, ◌≤◌, ◌∷◌, [], true, not, length, take};
ghost use Rattle.std.specs.Prelude.{drop, IfOk, IfErr, IfSome, IfNone};
ghost use Rattle.std.specs.List.{list_all};
ghost use Rattle.question_shell.specs.Lines.{BeginsWord, EndsWord, is_gap, words_of};
ghost use Rattle.question_shell.specs.declared.bad.Bad.TheVariants as bad;

use crate::bad::Bad;

// Cuts the first word off a line that should have one.
pub(crate) fn cut_word(line: &[u8]) -> Result<(&[u8], &[u8]), Bad>
    ensures ok { IfOk result (λ cut. words_of line.now ≡ cut.0.now ∷ words_of cut.1.now) }
    ensures none { IfErr result (λ _. words_of line.now ≡ []) }
    ensures err { IfErr result (λ fault. fault ≡ bad.Count) }
{
    next_word(line).ok_or(Bad::Count)
}

// Cuts the first word off a line.
pub(crate) fn next_word(line: &[u8]) -> Option<(&[u8], &[u8])>
    ensures none { IfNone result (words_of line.now ≡ []) }
    ensures some { IfSome result (λ cut. words_of line.now ≡ cut.0.now ∷ words_of cut.1.now) }
{
    let rest = skip_gaps(line);
    if rest.is_empty() {
        return None;
    }
    Some(rest.split_at(word_length(rest)))
}

// The line from its first byte that is no gap.
fn skip_gaps(line: &[u8]) -> &[u8]
    ensures words { words_of result.now ≡ words_of line.now }
    ensures word { BeginsWord result.now }
{
    let mut left = line;
    while let [first, rest @ ..] = left {
        if !is_gap_byte(*first) {
            break;
        }
        left = rest;
    }
    left
}

// How many bytes come before the first gap.
fn word_length(line: &[u8]) -> usize
    ensures within { result ≤ length line.now }
    ensures word { list_all (λ byte. not (is_gap byte)) (take result line.now) ≡ true }
    ensures end { EndsWord (drop result line.now) }
{
    for (length, byte) in line.iter().enumerate() {
        if is_gap_byte(*byte) {
            return length;
        }
    }
    line.len()
}

pub(crate) fn is_gap_byte(byte: u8) -> bool
    ensures { result ≡ is_gap byte }
{
    matches!(byte, b' ' | b'\t' | b'\r')
}
