// The words, the free links and the links of empty buffers, in one loop without branches.

ghost use Rattle.std.specs.Prelude.{◌≡◌, ◌^◌, ◌<◌, length};
ghost use Rattle.bufbooks.specs.Words.{fine, counts_of};

use bufmem::word::is_full;
use buftag::link::{NONE, OFF};

#[derive(Clone, Copy)]
pub struct Counts {
    // How many buffers have a word and links that fit together, and how many are empty.
    pub fine: u32,
    pub empty: u32,
}

// Whether a buffer's word fits its links.
fn is_fine(cap: u32, w: u32, free: i32, chain: i32) -> bool
    ensures { result ≡ fine cap w free chain }
{
    ((w == 0) & (chain == NONE)) | (is_full(cap, w) & (free == OFF))
}

#[tactic(auto, using(crate::proofs::WordsLaws::words), unfolding(crate::specs::Words::counts_of, crate::specs::Words::fine_at))]
pub fn count_words(cap: u32, states: &[u32], free: &[i32], chain: &[i32]) -> Counts
    requires { (length free.now ≡ length states.now) × (length chain.now ≡ length states.now)
        × (length states.now < 2 ^ 32) }
    ensures { result ≡ counts_of cap states.now free.now chain.now }
{
    let mut fine = 0;
    let mut empty = 0;
    for (i, &w) in states.iter().enumerate() {
        fine += u32::from(is_fine(cap, w, free[i], chain[i]));
        empty += u32::from(w == 0);
    }
    Counts { fine, empty }
}
