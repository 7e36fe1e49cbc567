// The look-up of a name in its bucket.

ghost use Rattle.std.specs.Prelude.{◌≡◌, ◌*◌, ◌<◌, length};
ghost use Rattle.buftag.specs.Names.{name_words};
ghost use Rattle.buftag.specs.Lookup.{walk, look_up};

use crate::link::{Link, link_at};
use crate::name::{PageName, bucket};
use crate::names::holds;
use crate::number::BufferNumber;

// The first buffer with the name, from a link on. Takes as many steps as there are buffers, at most, whatever the links are.
fn find_from(chain: &[i32], names: &[u32], name: PageName, first: Link) -> Option<BufferNumber>
    requires { length names.now ≡ name_words * length chain.now }
    ensures { result ≡ walk chain.now names.now name (length chain.now) first }
{
    let mut at = first;
    for _ in 0..chain.len() {
        let Link::To(i) = at else {
            return None;
        };
        if i >= chain.len() {
            return None;
        }
        if holds(names, BufferNumber(i), name) {
            return Some(BufferNumber(i));
        }
        at = link_at(chain, i);
    }
    None
}

// The buffer that has a page, if one has it: looked for in the bucket of its name.
pub fn look_up(heads: &[i32], chain: &[i32], names: &[u32], name: PageName) -> Option<BufferNumber>
    requires { (0 < length heads.now) × (length names.now ≡ name_words * length chain.now) }
    ensures { result ≡ look_up heads.now chain.now names.now name }
{
    let b = bucket(name, heads.len());
    find_from(chain, names, name, link_at(heads, b))
}
