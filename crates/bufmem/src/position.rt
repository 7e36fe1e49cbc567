// Log positions of pages: 8 bytes, the high word before the low one.

ghost use Rattle.std.specs.Prelude.{◌≡◌, ◌+◌, ◌≤◌, length, drop};
ghost use Rattle.bufmodel.specs.Position.{position, position_bytes, paste};

use bufhash::bytes::{put_word, word_at};

// A one in the high word, as part of a position.
const HIGH: u64 = 1 << 32;

// The position whose eight bytes stand from a place on.
pub fn position_at(bytes: &[u8], at: usize) -> u64
    requires { at + 8 ≤ length bytes.now }
    ensures { result ≡ position (drop at bytes.now) }
{
    let high = word_at(bytes, at);
    let low = word_at(bytes, at + 4);
    high * HIGH + low
}

// Stores a position's eight bytes from a place on.
pub fn put_position(bytes: &mut [u8], at: usize, p: u64)
    requires { at + 8 ≤ length bytes.old }
    ensures { bytes.new ≡ paste at (position_bytes p) bytes.old }
{
    put_word(bytes, at, (p / HIGH) as u32);
    put_word(bytes, at + 4, (p % HIGH) as u32);
}
