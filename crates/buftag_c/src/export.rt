// Names for programs in C: their bytes, there and back, and their hash.

ghost use Rattle.std.specs.Prelude.{◌≡◌, cond};
ghost use Rattle.buftag.specs.Name.{name_of, hash_of};
ghost use Rattle.buftag.specs.Export.{bytes_fit, both_fit, bytes_into, words_into};

// The hash of a name.
#[unsafe(no_mangle)]
pub extern "C" fn buftag_hash(
    tablespace: u32,
    database: u32,
    relation: u32,
    fork: u32,
    block: u32,
) -> u32
    ensures { result ≡ hash_of (name_of tablespace database relation fork block) }
{
    buftag::export::buftag_hash(tablespace, database, relation, fork, block)
}

// Fills `out` with a name's bytes and answers 0; where `out` has another length, it stays as it is and the answer is 1.
#[unsafe(no_mangle)]
pub extern "C" fn buftag_bytes(
    tablespace: u32,
    database: u32,
    relation: u32,
    fork: u32,
    block: u32,
    out: &mut [u8],
) -> u32
    ensures value { result ≡ cond (bytes_fit out.old) 0 1 }
    ensures out_after { out.new ≡ bytes_into out.old (name_of tablespace database relation fork block) }
{
    buftag::export::buftag_bytes(tablespace, database, relation, fork, block, out)
}

// Fills `words` with the five words of the name that has these bytes and answers 0; where `bytes` or `words` has another length,
// `words` stays as it is and the answer is 1.
#[unsafe(no_mangle)]
pub extern "C" fn buftag_name(bytes: &[u8], words: &mut [u32]) -> u32
    ensures value { result ≡ cond (both_fit bytes.now words.old) 0 1 }
    ensures words_after { words.new ≡ words_into words.old bytes.now }
{
    buftag::export::buftag_name(bytes, words)
}
