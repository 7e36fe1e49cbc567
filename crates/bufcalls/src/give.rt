// Give back: everything that a holder has.

ghost use Rattle.std.specs.Prelude.{◌≡◌, true, ◌≢◌, ◌<◌, length, get_or};
ghost use Rattle.bufmodel.specs.Word.{pinned};
ghost use Rattle.bufmodel.specs.Memory.{memory, with_counts};
ghost use Rattle.bufmodel.specs.Counts.{count_place, count_at};
ghost use Rattle.bufmodel.specs.Answer.{accepted_number, accepted_words, accepted_of};
ghost use Rattle.bufmodel.specs.Calls.{given_word, give_at, give_up_to, give_back};
ghost use Rattle.bufcalls.specs.Give.{pins_part, Counted};

use bufbooks::lent::refusal;
use bufmem::counts::{count_of, is_holder, put_count};
use bufmem::state::{put_state, state_of};
use bufmem::word::pin_less;
use bufmodel::control::Control;
use bufmodel::holder::Holder;
use bufmodel::refusal::Refusal;
use bufmodel::view::PoolView;
use buftag::number::BufferNumber;

// The word of a buffer on which a holder had so many pins and has none now.
fn given_word(count: u16, w: u32) -> u32
    requires { count ≢ 0 → pinned w ≡ true }
    ensures { result ≡ given_word count w }
{
    if count == 0 { w } else { pin_less(w) }
}

// What a holder has of one buffer.
fn give_at(states: &mut [u32], counts: &mut [u16], holder: Holder, buffer: BufferNumber)
    requires { (buffer.0 < length states.old) × (count_place buffer.0 holder.0 < length counts.old)
        × (count_at counts.old buffer.0 holder.0 ≢ 0 → pinned (get_or states.old buffer.0 0) ≡ true) }
    ensures { pins_part states.new counts.new
        ≡ give_at (pins_part states.old counts.old) holder.0 buffer.0 }
{
    let count = count_of(counts, holder, buffer);
    let word = given_word(count, state_of(states, buffer));
    put_state(states, buffer, word);
    put_count(counts, holder, buffer, 0);
}

// What it has of every buffer, rising.
fn give_all(states: &mut [u32], counts: &mut [u16], holder: Holder)
    requires { Counted (pins_part states.old counts.old) holder.0 }
    ensures { pins_part states.new counts.new
        ≡ give_up_to holder.0 (length states.old) (pins_part states.old counts.old) }
{
    for i in 0..states.len() {
        give_at(states, counts, holder, BufferNumber(i));
    }
}

// A holder that has nothing is accepted too.
pub fn give_back(
    control: Control,
    states: &mut [u32],
    names: &[u32],
    pool: &[u8],
    free: &[i32],
    heads: &[i32],
    chain: &[i32],
    rows: &[u32],
    store: &[u8],
    counts: &mut [u16],
    holder: Holder,
) -> Result<(), Refusal>
    ensures value { result
        ≡ accepted_of
        (give_back
        (with_counts counts.old
        (memory control states.old names.now pool.now free.now heads.now
        chain.now rows.now store.now)) holder.0) }
    ensures number { accepted_number result
        ≡ (give_back
        (with_counts counts.old
        (memory control states.old names.now pool.now free.now heads.now
        chain.now rows.now store.now)) holder.0).refusal }
    ensures words { accepted_words result
        ≡ (give_back
        (with_counts counts.old
        (memory control states.old names.now pool.now free.now heads.now
        chain.now rows.now store.now)) holder.0).answer }
    ensures store_after { with_counts counts.new
        (memory control states.new names.now pool.now free.now
        heads.now chain.now rows.now store.now)
        ≡ (give_back
        (with_counts counts.old
        (memory control states.old names.now pool.now free.now heads.now
        chain.now rows.now store.now)) holder.0).after }
{
    let lent = PoolView {
        control,
        states,
        names,
        pool,
        free,
        heads,
        chain,
        rows,
        store,
        counts,
    };
    refusal(&lent)?;
    if !is_holder(holder) {
        return Err(Refusal::NoHolder);
    }
    give_all(states, counts, holder);
    Ok(())
}
