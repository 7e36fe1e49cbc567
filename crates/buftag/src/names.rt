// The buffers' names as they lie in lent memory, five words each.

ghost use Rattle.std.specs.Prelude.{◌≡◌, ◌+◌, ◌*◌, ◌≤◌, length};
ghost use Rattle.buftag.specs.Name.{same_name};
ghost use Rattle.buftag.specs.Names.{name_words, name_at, set_name, no_name};

use crate::name::{PageName, page_name, same};
use crate::number::BufferNumber;

pub const NAME_WORDS: usize = 5;

// The place of the block among a name's words.
const BLOCK_WORD: usize = 4;

// An empty buffer's name: a default with a contract that callers cite.
pub fn no_name() -> PageName
    ensures { result ≡ no_name }
{
    PageName::default()
}

// A buffer's name.
pub fn stored(names: &[u32], buffer: BufferNumber) -> PageName
    requires { name_words * buffer.0 + name_words ≤ length names.now }
    ensures { result ≡ name_at names.now buffer.0 }
{
    let at = NAME_WORDS * buffer.0;
    page_name(
        names[at],
        names[at + 1],
        names[at + 2],
        names[at + 3],
        names[at + 4],
    )
}

// Whether a buffer's name is this one.
pub fn holds(names: &[u32], buffer: BufferNumber, name: PageName) -> bool
    requires { name_words * buffer.0 + name_words ≤ length names.now }
    ensures { result ≡ same_name (name_at names.now buffer.0) name }
{
    same(stored(names, buffer), name)
}

// Whether two buffers have one name. Their blocks, which tell most apart, are looked at alone first.
pub fn same_names(names: &[u32], a: BufferNumber, b: BufferNumber) -> bool
    requires { (name_words * a.0 + name_words ≤ length names.now) × (name_words * b.0 + name_words ≤ length names.now) }
    ensures { result ≡ same_name (name_at names.now a.0) (name_at names.now b.0) }
{
    names[NAME_WORDS * a.0 + BLOCK_WORD] == names[NAME_WORDS * b.0 + BLOCK_WORD]
        && same(stored(names, a), stored(names, b))
}

// Gives a buffer a name.
pub fn put_name(names: &mut [u32], buffer: BufferNumber, name: PageName)
    requires { name_words * buffer.0 + name_words ≤ length names.old }
    ensures { names.new ≡ set_name names.old buffer.0 name }
{
    let at = NAME_WORDS * buffer.0;
    names[at] = name.file.tablespace;
    names[at + 1] = name.file.database;
    names[at + 2] = name.file.relation;
    names[at + 3] = name.file.fork;
    names[at + 4] = name.block.0;
}
