// Set up: all buffers and chains empty, every buffer in the free list, hand 0, both positions and the cap as given, all counts 0.

ghost use Rattle.std.specs.Prelude.{◌≡◌, ◌<◌, ◌^◌, length, replicate};
ghost use Rattle.buftag.specs.Link.{none};
ghost use Rattle.bufmodel.specs.Memory.{memory, with_counts};
ghost use Rattle.bufmodel.specs.Answer.{accepted_number, accepted_words, accepted_of, done_of, record_of};
ghost use Rattle.bufmodel.specs.Calls.{free_links, set_up};

use bufbooks::sizes::sizes_ok;
use bufmem::word::cap_ok;
use bufmodel::control::Control;
use bufmodel::refusal::Refusal;
use bufmodel::view::PoolView;
use buftag::link::NONE;

// Every buffer leads to the next, the last one to the end.
fn link_all(links: &mut [i32])
    requires { (0 < length links.old) × (length links.old < 2 ^ 31) }
    ensures { links.new ≡ free_links 0 (length links.old) }
{
    let last = links.len() - 1;
    for i in 0..last {
        links[i] = (i + 1) as i32;
    }
    links[last] = NONE;
}

pub fn set_up_pool(
    control: Control,
    states: &mut [u32],
    names: &mut [u32],
    pool: &[u8],
    free: &mut [i32],
    heads: &mut [i32],
    chain: &mut [i32],
    rows: &[u32],
    store: &[u8],
    counts: &mut [u16],
    size: usize,
    position: u64,
    cap: usize,
) -> Result<Control, Refusal>
    ensures value { done_of result
        ≡ accepted_of
        (set_up
        (with_counts counts.old
        (memory control states.old names.old pool.now free.old heads.old
        chain.old rows.now store.now)) size position cap) }
    ensures number { accepted_number (done_of result)
        ≡ (set_up
        (with_counts counts.old
        (memory control states.old names.old pool.now free.old heads.old
        chain.old rows.now store.now)) size position cap).refusal }
    ensures words { accepted_words (done_of result)
        ≡ (set_up
        (with_counts counts.old
        (memory control states.old names.old pool.now free.old heads.old
        chain.old rows.now store.now)) size position cap).answer }
    ensures store_after { with_counts counts.new
        (memory (record_of control result) states.new names.new pool.now free.new
        heads.new chain.new rows.now store.now)
        ≡ (set_up
        (with_counts counts.old
        (memory control states.old names.old pool.now free.old heads.old
        chain.old rows.now store.now)) size position cap).after }
{
    let fresh = Control {
        size,
        hand: 0,
        top: 0,
        inserted: position,
        flushed: position,
        cap,
    };
    let lent = PoolView {
        control: fresh,
        states,
        names,
        pool,
        free,
        heads,
        chain,
        rows,
        store,
        counts,
    };
    if !sizes_ok(&lent) {
        return Err(Refusal::Sizes);
    }
    if !cap_ok(cap) {
        return Err(Refusal::Cap);
    }
    states.fill(0);
    names.fill(0);
    link_all(free);
    heads.fill(NONE);
    chain.fill(NONE);
    counts.fill(0);
    Ok(fresh)
}
