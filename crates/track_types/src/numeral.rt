ghost use Rattle.std.specs.Prelude.{◌≡◌, ◌+◌, ◌*◌, ◌^◌, ◌<◌, ◌≤◌, [], ◌∷◌, true, false, length, pos, IfSome, IfNone};
ghost use Rattle.std.specs.List.{list_all};
ghost use Rattle.track_types.specs.Numeral.{is_blank, is_decimal, is_digit, magnitude_of, numeral_of, signed_of, trimmed, without_blanks_before, without_blanks_behind};

/// What a word is as a whole number.
#[derive(Clone, Copy, Debug, PartialEq, Eq)]
pub enum Numeral {
    /// A numeral whose value is within -2^62 to 2^62.
    Value(i64),
    /// A numeral whose value is outside.
    Large,
    /// No numeral.
    Not,
}

/// The greatest magnitude of a value, 2^62.
const GREATEST: u128 = 0x4000_0000_0000_0000;

/// The most digits whose value needs no look at its size: it is below 10^18, and so below 2^62.
const FEW_DIGITS: usize = 18;

/// Reads a word as a numeral: any number of spaces and tabs, at most one `+` or `-`, at least one
/// decimal digit, and any number of spaces and tabs. It takes no memory, however long the word is.
pub fn number(word: &[u8]) -> Numeral
    ensures { result ≡ numeral_of word.now }
{
    match bare_number(word) {
        Some(value) => Numeral::Value(value),
        None => trimmed_number(word),
    }
}

// The value of a word that is a few digits and nothing else, as most words are.
fn bare_number(word: &[u8]) -> Option<i64>
    ensures { IfSome result (λ value. numeral_of word.now ≡ Numeral.Value value) }
{
    if word.len() > FEW_DIGITS {
        return None;
    }
    few_digits(word)
}

// Any other word. Out of line, so that the common way stays short.
#[inline(never)]
fn trimmed_number(word: &[u8]) -> Numeral
    ensures { result ≡ numeral_of word.now }
{
    match trim_end(trim_start(word)) {
        [b'-', digits @ ..] => signed(true, digits),
        [b'+', digits @ ..] => signed(false, digits),
        digits => signed(false, digits),
    }
}

fn trim_start(word: &[u8]) -> &[u8]
    ensures { result.now ≡ without_blanks_before word.now }
{
    let mut left = word;
    while let [first, rest @ ..] = left {
        if !is_blank_byte(*first) {
            break;
        }
        left = rest;
    }
    left
}

fn trim_end(word: &[u8]) -> &[u8]
    ensures { result.now ≡ without_blanks_behind word.now }
{
    let mut left = word;
    while let [rest @ .., last] = left {
        if !is_blank_byte(*last) {
            break;
        }
        left = rest;
    }
    left
}

fn is_blank_byte(byte: u8) -> bool
    ensures { result ≡ is_blank byte }
{
    byte == b' ' || byte == b'\t'
}

fn signed(is_negative: bool, digits: &[u8]) -> Numeral
    ensures { result ≡ signed_of is_negative digits.now }
{
    if digits.len() > FEW_DIGITS {
        return signed_long(is_negative, digits);
    }
    match few_digits(digits) {
        None => Numeral::Not,
        Some(size) => Numeral::Value(if is_negative { -size } else { size }),
    }
}

// What the digits mean, in one pass, or none where there is no byte or one that is no digit. It is
// fastest to take many digits at once.
fn few_digits(digits: &[u8]) -> Option<i64>
    requires { length digits.now ≤ 18 }
    ensures decimal { IfSome result (λ _. is_decimal digits.now ≡ true) }
    ensures within { IfSome result (λ value.
        (value ≡ pos (magnitude_of digits.now)) × (magnitude_of digits.now ≤ 2 ^ 62)) }
    ensures none { IfNone result (is_decimal digits.now ≡ false) }
{
    let mut value: u64 = 0;
    let mut left = digits;
    // Few words have sixteen digits or more, so that one group of eight is enough.
    if let [a, b, c, d, e, f, g, h, rest @ ..] = left {
        value = eight_digits(*a, *b, *c, *d, *e, *f, *g, *h)?;
        left = rest;
    }
    while let [thousands, hundreds, tens, ones, rest @ ..] = left {
        value = 10_000 * value + four_digits(*thousands, *hundreds, *tens, *ones)?;
        left = rest;
    }
    if left.is_empty() {
        // Only here can the word itself be empty, so that other words need no such test.
        return if digits.is_empty() {
            None
        } else {
            Some(value as i64)
        };
    }
    Some(last_digits(value, left)? as i64)
}

// What at most three digits mean that come after those that mean `value`.
fn last_digits(value: u64, digits: &[u8]) -> Option<u64>
    requires few { length digits.now < 4 }
    requires small { (value + 1) * 10 ^ length digits.now ≤ 10 ^ 18 }
    ensures digits { IfSome result (λ all. list_all is_digit digits.now ≡ true) }
    ensures value { IfSome result (λ all.
        all ≡ value * 10 ^ length digits.now + magnitude_of digits.now) }
    ensures within { IfSome result (λ all. all < 10 ^ 18) }
    ensures none { IfNone result (list_all is_digit digits.now ≡ false) }
{
    match digits {
        [] => Some(value),
        [ones] => Some(10 * value + one_digit(*ones)?),
        [tens, ones] => Some(100 * value + two_digits(*tens, *ones)?),
        [hundreds, tens, ones, ..] => {
            let front = 100 * value + two_digits(*hundreds, *tens)?;
            Some(10 * front + one_digit(*ones)?)
        }
    }
}

fn eight_digits(a: u8, b: u8, c: u8, d: u8, e: u8, f: u8, g: u8, h: u8) -> Option<u64>
    ensures digits { let bytes = a ∷ b ∷ c ∷ d ∷ e ∷ f ∷ g ∷ h ∷ [] in
        IfSome result (λ value. (list_all is_digit bytes ≡ true) × (value ≡ magnitude_of bytes)) }
    ensures none { let bytes = a ∷ b ∷ c ∷ d ∷ e ∷ f ∷ g ∷ h ∷ [] in
        IfNone result (list_all is_digit bytes ≡ false) }
{
    // As in `four_digits`, in a word of twice the length.
    let word = u64::from_le_bytes([a, b, c, d, e, f, g, h]);
    let marks = word & word.wrapping_add(0x0606_0606_0606_0606) & 0xf0f0_f0f0_f0f0_f0f0;
    if marks != 0x3030_3030_3030_3030 {
        return None;
    }
    let digits = word - 0x3030_3030_3030_3030;
    // What goes beyond the word by either product is of no use.
    let pairs = digits.wrapping_mul(0xa01) / 0x100 & 0x00ff_00ff_00ff_00ff;
    // The lowest 16 bits of `fours` are a hundred times a pair and the next, and so are those from
    // bit 32 on: 0x64_0001 is 100 * 0x1_0000 + 1.
    let fours = pairs.wrapping_mul(0x64_0001) / 0x1_0000;
    Some(10_000 * (fours % 0x1_0000) + fours / 0x1_0000_0000)
}

fn four_digits(thousands: u8, hundreds: u8, tens: u8, ones: u8) -> Option<u64>
    ensures digits { let bytes = thousands ∷ hundreds ∷ tens ∷ ones ∷ [] in
        IfSome result (λ value. (list_all is_digit bytes ≡ true) × (value ≡ magnitude_of bytes)) }
    ensures none { let bytes = thousands ∷ hundreds ∷ tens ∷ ones ∷ [] in
        IfNone result (list_all is_digit bytes ≡ false) }
{
    // All four as one word: tests of single bytes become vector instructions, which are slower.
    let word = u64::from(u32::from_le_bytes([thousands, hundreds, tens, ones]));
    // The upper half of a digit is 3, and so is that of the digit plus 6. A byte that carries into
    // the next one is no digit itself.
    if word & (word + 0x0606_0606) & 0xf0f0_f0f0 != 0x3030_3030 {
        return None;
    }
    let digits = word - 0x3030_3030;
    // Every second byte of `pairs` is ten times a digit and the next: 0xa01 is 10 * 0x100 + 1.
    let pairs = 0xa01 * digits / 0x100 & 0x00ff_00ff;
    // And 0x64_0001 is 100 * 0x1_0000 + 1.
    Some(pairs * 0x64_0001 % 0x1_0000_0000 / 0x1_0000)
}

fn two_digits(tens: u8, ones: u8) -> Option<u64>
    ensures digits { let bytes = tens ∷ ones ∷ [] in
        IfSome result (λ value. (list_all is_digit bytes ≡ true) × (value ≡ magnitude_of bytes)) }
    ensures none { let bytes = tens ∷ ones ∷ [] in
        IfNone result (list_all is_digit bytes ≡ false) }
{
    // As in `four_digits`, in a word of half the length.
    let word = u64::from(u16::from_le_bytes([tens, ones]));
    if word & (word + 0x0606) & 0xf0f0 != 0x3030 {
        return None;
    }
    Some(0xa01 * (word - 0x3030) / 0x100 % 0x100)
}

fn one_digit(byte: u8) -> Option<u64>
    ensures digits { IfSome result (λ value.
        (list_all is_digit (byte ∷ []) ≡ true) × (value ≡ magnitude_of (byte ∷ []))) }
    ensures none { IfNone result (list_all is_digit (byte ∷ []) ≡ false) }
{
    if is_digit_byte(byte) {
        Some(u64::from(byte - b'0'))
    } else {
        None
    }
}

// Digits of any number. Most of them may be leading zeros.
fn signed_long(is_negative: bool, digits: &[u8]) -> Numeral
    ensures { result ≡ signed_of is_negative digits.now }
{
    if !is_decimal_text(digits) {
        return Numeral::Not;
    }
    match magnitude(digits) {
        None => Numeral::Large,
        Some(size) => Numeral::Value(if is_negative { -size } else { size }),
    }
}

fn is_decimal_text(digits: &[u8]) -> bool
    ensures { result ≡ is_decimal digits.now }
{
    !digits.is_empty() && has_digits_alone(digits)
}

fn has_digits_alone(digits: &[u8]) -> bool
    ensures { result ≡ list_all is_digit digits.now }
{
    digits.iter().all(|digit| is_digit_byte(*digit))
}

fn is_digit_byte(byte: u8) -> bool
    ensures { result ≡ is_digit byte }
{
    b'0' <= byte && byte <= b'9'
}

// What the digits mean, or none where that is above `GREATEST`.
fn magnitude(digits: &[u8]) -> Option<i64>
    requires { list_all is_digit digits.now ≡ true }
    ensures within { IfSome result (λ value.
        (value ≡ pos (magnitude_of digits.now)) × (magnitude_of digits.now ≤ 2 ^ 62)) }
    ensures large { IfNone result (2 ^ 62 < magnitude_of digits.now) }
{
    let mut value: u128 = 0;
    for digit in digits {
        value = 10 * value + u128::from(*digit - b'0');
        if value > GREATEST {
            return None;
        }
    }
    Some(value as i64)
}
