// The clock sweep: which buffer is taken when none is free.

ghost use Rattle.std.specs.Prelude.{◌≡◌, ◌≤◌, ◌<◌, length};
ghost use Rattle.bufmodel.specs.Word.{max_cap};
ghost use Rattle.bufmodel.specs.Sizes.{max_buffers};
ghost use Rattle.bufmodel.specs.Sweep.{next, sweep_all};
ghost use Rattle.bufmoves.specs.Sweep.{victim_of};

use bufmem::word::{is_pinned, usage_of, use_less};
use buftag::number::BufferNumber;

// The buffer taken, the hand afterwards and the probes.
#[derive(Clone, Copy)]
pub struct Victim {
    pub buffer: BufferNumber,
    pub hand: usize,
    pub probes: u64,
}

// The buffer after `at`, wrapping at n.
fn next_of(n: usize, at: usize) -> usize
    requires { at < n }
    ensures { result ≡ next n at }
{
    if at + 1 == n {
        return 0;
    }
    at + 1
}

// Probes the buffer at the hand and moves the hand on, until a buffer is taken or all were found pinned in a row: then there is no victim.
pub fn sweep(cap: usize, states: &mut [u32], hand: usize) -> Option<Victim>
    requires { (hand < length states.old) × (length states.old ≤ max_buffers) × (cap ≤ max_cap) }
    ensures value { result ≡ victim_of (sweep_all cap states.old hand) }
    ensures states_after { states.new ≡ (sweep_all cap states.old hand).words }
{
    let n = states.len();
    let mut at = hand;
    let mut run = 0;
    for passed in 0..(cap + 1) * n {
        let w = states[at];
        let here = at;
        at = next_of(n, at);
        if is_pinned(w) {
            run += 1;
            if run == n {
                return None;
            }
            continue;
        }
        if usage_of(w) == 0 {
            return Some(Victim {
                buffer: BufferNumber(here),
                hand: at,
                probes: passed as u64 + 1,
            });
        }
        states[here] = use_less(w);
        run = 0;
    }
    None
}
