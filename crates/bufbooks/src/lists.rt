// The words and the lists: whether as many places are in the free list and in the chains as there are buffers for them.

ghost use Rattle.std.specs.Prelude.{◌≡◌, ◌≤◌, length};
ghost use Rattle.bufmodel.specs.Word.{max_cap};
ghost use Rattle.bufmodel.specs.Sizes.{max_buffers, max_buckets};
ghost use Rattle.bufbooks.specs.Lists.{lists_test};

use crate::words::count_words;
use bufmodel::control::Control;
use buftag::budget::{is_spent, list_walk};
use buftag::lead::leading;
use buftag::link::Link;

// The lists need no look at what stands in them: buffers in use have free link -2 and are found in their chains, so a free list of the
// right number of places, and chains of the right number of links, hold the right ones.
#[tactic(auto, using(crate::proofs::ListsLaws::few), unfolding(crate::specs::Lists::lists_test))]
pub fn lists_ok(
    control: Control,
    states: &[u32],
    free: &[i32],
    heads: &[i32],
    chain: &[i32],
) -> bool
    requires { (length states.now ≤ max_buffers) × (length heads.now ≤ max_buckets) × (length free.now ≡ length states.now)
        × (length chain.now ≡ length states.now)
        × (control.cap ≤ max_cap) }
    ensures { result
        ≡ lists_test control.cap control.top states.now free.now heads.now
        chain.now }
{
    let words = count_words(control.cap as u32, states, free, chain);
    let top = Link::from(control.top);
    words.fine as usize == states.len()
        && leading(heads) + leading(chain) + words.empty == words.fine
        && is_spent(list_walk(free, top, words.empty as usize))
}
