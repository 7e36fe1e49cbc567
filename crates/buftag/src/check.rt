// The check of a buffer's place in its chain. Where each buffer in use is the first there with its name, an empty one leads nowhere, and
// as many links lead on as there are buffers in use, each is in its chain once, and no chain has another.

ghost use Rattle.std.specs.Prelude.{◌≡◌, false, ◌*◌, ◌^◌, ◌<◌, length};
ghost use Rattle.buftag.specs.Names.{name_words};
ghost use Rattle.buftag.specs.Link.{link_of, is_to};
ghost use Rattle.buftag.specs.Check.{is_first};

use crate::names::same_names;
use crate::number::BufferNumber;

// Whether a buffer is the first with its name in the chain that starts at `first`.
pub fn is_first(chain: &[i32], names: &[u32], first: i32, buffer: BufferNumber) -> bool
    requires { (length names.now ≡ name_words * length chain.now) × (buffer.0 < length chain.now) × (buffer.0 < 2 ^ 31) }
    ensures { result ≡ is_first chain.now names.now (link_of first) buffer.0 }
{
    first == buffer.0 as i32 || is_later(chain, names, first, buffer)
}

// The same where the chain does not start with the buffer: the walk looks at each place's next link.
// It takes the numbers as they are stored, by a sign test and a cast, since the buffer's own is compared with each as it stands there.
// The steps are counted down: a step takes one branch, counted up two. By where the linker puts either, a chain of all names takes a tenth
// more or less.
fn is_later(chain: &[i32], names: &[u32], first: i32, buffer: BufferNumber) -> bool
    requires { (length names.now ≡ name_words * length chain.now) × (buffer.0 < length chain.now) × (buffer.0 < 2 ^ 31)
        × (is_to buffer.0 (link_of first) ≡ false) }
    ensures { result ≡ is_first chain.now names.now (link_of first) buffer.0 }
{
    let own = buffer.0 as i32;
    let mut at = first;
    for left in (1..chain.len()).rev() {
        if at < 0 {
            return false;
        }
        let i = at as usize;
        if i >= chain.len() {
            return false;
        }
        if same_names(names, BufferNumber(i), buffer) {
            return false;
        }
        at = chain[i];
        if at == own {
            return true;
        }
    }
    false
}
