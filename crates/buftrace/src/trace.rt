// One use of a block: pinned and unpinned, without page bytes. Of each buffer that has a page the state word and the block are lent, and a
// table from blocks to buffers.

ghost use Rattle.std.specs.Prelude.{◌≡◌, suc, ◌+◌, ◌^◌, ◌<◌, length, get_or, set};
ghost use Rattle.bufmodel.specs.Sizes.{max_buffers, max_blocks};
ghost use Rattle.buftrace.specs.Input.{max_uses};
ghost use Rattle.buftrace.specs.Trace.{Fit, Idle, many, hit_word, load_word, hit_more, load_more, trace_of, use1};

use crate::usage::Totals;
use bufmem::word::{loaded_word, pin_less, pin_more};
use bufmoves::sweep::sweep;

// The cap.
const CAP: usize = 5;

#[derive(Clone, Copy, Default)]
pub struct Tally {
    // Buffers that have a page: the free list has given them, rising.
    pub used: usize,
    // The next buffer that the sweep looks at.
    pub hand: usize,
    pub totals: Totals,
}

// Block `block` is used in a pool of n buffers. The three slices are passed on one by one: the statement of a list's cost names them, here
// and in `scan`.
pub fn use_block(
    n: usize,
    c: Tally,
    states: &mut [u32],
    held: &mut [u16],
    place: &mut [u16],
    block: usize,
) -> Tally
    requires fit { Fit n c states.old held.old place.old }
    requires n_nonzero { (0 < n) × (block < max_blocks) × (many c.totals < max_uses) }
    ensures held_after { trace_of result states.new held.new
        ≡ use1 n (trace_of c states.old held.old) block }
    ensures fit_2 { Fit n result states.new held.new place.new }
    ensures totals_value { many result.totals ≡ suc (many c.totals) }
{
    // the contract's table has 0 for none: an Option of each entry would take twice the memory
    let at = usize::from(place[block]);
    if at != 0 {
        return use_held(c, states, at - 1);
    }
    if c.used < n {
        return use_free(c, states, held, place, block);
    }
    use_victim(n, c, states, held, place, block)
}

// The page is held, in buffer i.
fn use_held(c: Tally, states: &mut [u32], i: usize) -> Tally
    requires { (i < length states.old) × Idle (get_or states.old i 0) × (many c.totals < max_uses) }
    ensures value { result ≡ record { used = c.used; hand = c.hand; totals = hit_more c.totals } }
    ensures states_after { states.new ≡ set states.old i (hit_word (get_or states.old i 0)) }
{
    states[i] = pin_less(pin_more(CAP as u32, states[i]));
    Tally {
        totals: hit_more(c.totals),
        ..c
    }
}

// One hit more.
fn hit_more(totals: Totals) -> Totals
    requires { totals.hits < max_uses }
    ensures { result ≡ hit_more totals }
{
    Totals {
        hits: totals.hits + 1,
        ..totals
    }
}

// One load more, after so many probes.
fn load_more(totals: Totals, probes: u64) -> Totals
    requires { (totals.loads < max_uses) × (totals.probes + probes < 2 ^ 64) }
    ensures { result ≡ load_more probes totals }
{
    Totals {
        loads: totals.loads + 1,
        probes: totals.probes + probes,
        ..totals
    }
}

// The page comes into buffer i.
fn put_block(states: &mut [u32], held: &mut [u16], place: &mut [u16], i: usize, block: usize)
    requires i_lt_max_buffers { (i < max_buffers) × (block < max_blocks) }
    requires states_len { (length states.old ≡ max_buffers) × (length held.old ≡ max_buffers) × (length place.old ≡ max_blocks) }
    ensures states_after { states.new ≡ set states.old i load_word }
    ensures held_after { held.new ≡ set held.old i block }
    ensures place_after { place.new ≡ set place.old block (suc i) }
{
    states[i] = pin_less(loaded_word());
    held[i] = block as u16;
    place[block] = (i + 1) as u16;
}

// The page comes into the next buffer of the free list.
fn use_free(
    c: Tally,
    states: &mut [u32],
    held: &mut [u16],
    place: &mut [u16],
    block: usize,
) -> Tally
    requires used_lt_max_buffers { (c.used < max_buffers) × (block < max_blocks) × (many c.totals < max_uses) }
    requires states_len { (length states.old ≡ max_buffers) × (length held.old ≡ max_buffers) × (length place.old ≡ max_blocks) }
    ensures value { result ≡ record { used = suc c.used; hand = c.hand; totals = load_more 0 c.totals } }
    ensures states_after { states.new ≡ set states.old c.used load_word }
    ensures held_after { held.new ≡ set held.old c.used block }
    ensures place_after { place.new ≡ set place.old block (suc c.used) }
{
    put_block(states, held, place, c.used, block);
    Tally {
        used: c.used + 1,
        totals: load_more(c.totals, 0),
        ..c
    }
}

// No buffer is free: the page comes into the sweep's victim. Nothing is pinned, so there is one.
fn use_victim(
    n: usize,
    c: Tally,
    states: &mut [u32],
    held: &mut [u16],
    place: &mut [u16],
    block: usize,
) -> Tally
    requires fit { Fit n c states.old held.old place.old }
    requires used_value { (c.used ≡ n) × (0 < n) × (block < max_blocks) × (many c.totals < max_uses) }
    requires block_value { get_or place.old block 0 ≡ 0 }
    ensures held_after { trace_of result states.new held.new
        ≡ use1 n (trace_of c states.old held.old) block }
    ensures fit_2 { Fit n result states.new held.new place.new }
    ensures totals_value { many result.totals ≡ suc (many c.totals) }
{
    let victim = sweep(CAP, &mut states[..n], c.hand).unwrap();
    let v = victim.buffer.0;
    place[usize::from(held[v])] = 0;
    put_block(states, held, place, v, block);
    Tally {
        hand: victim.hand,
        totals: load_more(c.totals, victim.probes),
        ..c
    }
}
