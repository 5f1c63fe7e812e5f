// Numbers of two bytes, the low byte first, one after another.
ghost use Rattle.std.specs.Prelude.{◌≡◌, ℕ, ◌+◌, ◌*◌, ◌/◌, ◌^◌, ◌<◌, length, slice_index};
ghost use Rattle.furnace.specs.Words.{byte_of, word_in, words_in};

use std::array;

// The number in place i.
pub fn word_at(bytes: &[u8], i: usize) -> u16
    requires { 2 * i + 1 < length bytes.now }
    ensures { result ≡ word_in bytes.now i }
{
    u16::from_le_bytes([bytes[2 * i], bytes[2 * i + 1]])
}

// The bytes of N numbers, two of each, made by index, as they are read back.
pub fn word_bytes<const N: usize, const B: usize>(words: &[u16; N]) -> [u8; B]
    requires { B ≡ 2 * N }
    ensures { words_in result N ≡ words.now }
{
    array::from_fn(
        |i| -> u8
            requires { i < 2 * N }
            ensures byte { result ≡ byte_of words.entry.now i }
            ensures word { slice_index words.entry.now (i / 2) < 2 ^ 16 }
        { words[i / 2].to_le_bytes()[i % 2] },
    )
}
