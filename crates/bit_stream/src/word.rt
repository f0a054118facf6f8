ghost use Rattle.std.specs.Prelude.{◌≡◌, ◌≤◌, length};
ghost use Rattle.std.specs.Int.{w64, from_le_bytes};
ghost use Rattle.packed_bits.specs.Bits.{number_of, window_of};
ghost use Rattle.bit_stream.specs.Bytes.{bits_in};

/// The number that the first eight bytes spell, lowest first, or all bytes where there are fewer.
pub fn first_word(bytes: &[u8]) -> u64
    ensures { result ≡ window_of (bits_in bytes.now) 0 64 }
{
    if bytes.len() < 8 {
        return short_word(bytes);
    }
    let (front, _) = bytes.split_at(8);
    whole_word(front)
}

// The number that eight bytes spell.
fn whole_word(bytes: &[u8]) -> u64
    requires { length bytes.now ≡ 8 }
    ensures { result ≡ from_le_bytes w64 bytes.now }
{
    u64::from_le_bytes([
        bytes[0], bytes[1], bytes[2], bytes[3], bytes[4], bytes[5], bytes[6], bytes[7],
    ])
}

// The number that fewer than eight bytes spell.
fn short_word(bytes: &[u8]) -> u64
    requires { length bytes.now ≤ 7 }
    ensures { result ≡ number_of (bits_in bytes.now) }
{
    let mut word = 0;
    for i in 0..bytes.len() {
        word += u64::from(bytes[i]) << (8 * i);
    }
    word
}
