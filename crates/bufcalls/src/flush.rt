// Flush: the page of a buffer that a holder has a pin on is written back if it is dirty.

ghost use Rattle.std.specs.Prelude.{◌≡◌};
ghost use Rattle.bufmodel.specs.Memory.{memory, with_counts};
ghost use Rattle.bufmodel.specs.Answer.{written_number, written_words, written_of, answer_of, ended_control};
ghost use Rattle.bufmodel.specs.Calls.{flush};

use crate::buffer::buffer_refusal;
use bufmem::flag::one_if;
use bufmem::state::state_of;
use bufmem::word::is_dirty;
use bufmodel::answer::Ended;
use bufmodel::control::Control;
use bufmodel::holder::Holder;
use bufmodel::refusal::Refusal;
use bufmodel::view::PoolView;
use bufmoves::back::write_back;
use buftag::number::BufferNumber;

// Writes the page back if it is dirty.
pub fn flush_buffer(
    control: Control,
    states: &mut [u32],
    names: &[u32],
    pool: &[u8],
    free: &[i32],
    heads: &[i32],
    chain: &[i32],
    rows: &[u32],
    store: &mut [u8],
    counts: &[u16],
    holder: Holder,
    buffer: BufferNumber,
) -> Result<Ended<u64>, Refusal>
    ensures value { answer_of result
        ≡ written_of
        (flush
        (with_counts counts.now
        (memory control states.old names.now pool.now free.now heads.now
        chain.now rows.now store.old)) holder.0 buffer.0) }
    ensures number { written_number (answer_of result)
        ≡ (flush
        (with_counts counts.now
        (memory control states.old names.now pool.now free.now heads.now
        chain.now rows.now store.old)) holder.0 buffer.0).refusal }
    ensures words { written_words (answer_of result)
        ≡ (flush
        (with_counts counts.now
        (memory control states.old names.now pool.now free.now heads.now
        chain.now rows.now store.old)) holder.0 buffer.0).answer }
    ensures store_after { with_counts counts.now
        (memory (ended_control control result) states.new names.now pool.now free.now
        heads.now chain.now rows.now store.new)
        ≡ (flush
        (with_counts counts.now
        (memory control states.old names.now pool.now free.now heads.now
        chain.now rows.now store.old)) holder.0 buffer.0).after }
{
    let lent = PoolView {
        control,
        states,
        names,
        pool,
        free,
        heads,
        chain,
        rows,
        store,
        counts,
    };
    buffer_refusal(&lent, holder, buffer)?;
    let answer = one_if(is_dirty(state_of(states, buffer)));
    let control = write_back(control, states, names, pool, rows, store, buffer);
    Ok(Ended { control, answer })
}
