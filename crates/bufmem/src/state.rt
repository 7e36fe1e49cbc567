// A buffer's state word, in the lent words.

ghost use Rattle.std.specs.Prelude.{◌≡◌, ◌<◌, ltb, length, get_or, set};

use buftag::number::BufferNumber;

// Whether there is such a buffer.
pub fn is_buffer(states: &[u32], buffer: BufferNumber) -> bool
    ensures { result ≡ ltb buffer.0 (length states.now) }
{
    buffer.0 < states.len()
}

pub fn state_of(states: &[u32], buffer: BufferNumber) -> u32
    requires { buffer.0 < length states.now }
    ensures { result ≡ get_or states.now buffer.0 0 }
{
    states[buffer.0]
}

pub fn put_state(states: &mut [u32], buffer: BufferNumber, word: u32)
    requires { buffer.0 < length states.old }
    ensures { states.new ≡ set states.old buffer.0 word }
{
    states[buffer.0] = word;
}
