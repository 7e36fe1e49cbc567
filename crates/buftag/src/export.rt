// Names for programs in C: their bytes, there and back, and their hash. The C interface needs plain numbers, for an answer too.

ghost use Rattle.std.specs.Prelude.{◌≡◌, cond};
ghost use Rattle.buftag.specs.Name.{name_of, hash_of};
ghost use Rattle.buftag.specs.Export.{bytes_fit, both_fit, bytes_into, words_into};

use crate::name::{NAME_SIZE, hash, name_of_bytes, page_name, put_bytes};
use crate::names::{NAME_WORDS, put_name};
use crate::number::BufferNumber;

// The hash of a name.
pub fn buftag_hash(tablespace: u32, database: u32, relation: u32, fork: u32, block: u32) -> u32
    ensures { result ≡ hash_of (name_of tablespace database relation fork block) }
{
    hash(tablespace, database, relation, fork, block)
}

// Fills `out` with a name's bytes and answers 0; where `out` has another length, it stays as it is and the answer is 1.
pub fn buftag_bytes(
    tablespace: u32,
    database: u32,
    relation: u32,
    fork: u32,
    block: u32,
    out: &mut [u8],
) -> u32
    ensures value { result ≡ cond (bytes_fit out.old) 0 1 }
    ensures out_after { out.new ≡ bytes_into out.old (name_of tablespace database relation fork block) }
{
    if out.len() != NAME_SIZE {
        return 1;
    }
    put_bytes(out, page_name(tablespace, database, relation, fork, block));
    0
}

// Fills `words` with the five words of the name that has these bytes and answers 0; where `bytes` or `words` has another length,
// `words` stays as it is and the answer is 1.
pub fn buftag_name(bytes: &[u8], words: &mut [u32]) -> u32
    ensures value { result ≡ cond (both_fit bytes.now words.old) 0 1 }
    ensures words_after { words.new ≡ words_into words.old bytes.now }
{
    if bytes.len() != NAME_SIZE || words.len() != NAME_WORDS {
        return 1;
    }
    // a name's words lie as the names of one buffer do
    put_name(words, BufferNumber(0), name_of_bytes(bytes));
    0
}
