// Words in bytes, little-endian: stored and read.

ghost use Rattle.std.specs.Prelude.{◌≡◌, ◌+◌, ◌^◌, ◌≤◌, ◌<◌, length};
ghost use Rattle.std.proofs.lemmas.List.Edits.{sets};
ghost use Rattle.bufhash.specs.Bytes.{word_bytes, word_at};

// Stores a word's four bytes from a place on, the lowest first.
pub fn put_word(out: &mut [u8], at: usize, w: u32)
    requires { at + 4 ≤ length out.old }
    ensures { out.new ≡ sets out.old at (word_bytes w) }
{
    out[at..at + 4].copy_from_slice(&w.to_le_bytes());
}

// The word whose four bytes stand from a place on, the lowest first.
pub fn word_at(bytes: &[u8], at: usize) -> u64
    requires { at + 4 ≤ length bytes.now }
    ensures { (result ≡ word_at bytes.now at) × (result < 2 ^ 32) }
{
    u64::from(u32::from_le_bytes([bytes[at], bytes[at + 1], bytes[at + 2], bytes[at + 3]]))
}
