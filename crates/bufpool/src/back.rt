// Flush and checkpoint.

ghost use Rattle.std.specs.Prelude.{◌≡◌, []};
ghost use Rattle.bufmodel.specs.Lent.{called};
ghost use Rattle.bufpool.specs.Lent.{lent, ends};
ghost use Rattle.bufmodel.specs.Calls.{flush, checkpoint};

use crate::answer::refuse;
use crate::control::put_end;
use bufcalls::checkpoint::checkpoint_pool;
use bufcalls::flush::flush_buffer;
use bufmem::control::{ANSWER_WORDS, CONTROL_WORDS, read_control};
use bufmodel::holder::Holder;
use bufmodel::refusal::Refusal;
use buftag::number::BufferNumber;

// Writes a pinned page back if it is dirty: answers how many were written.
pub fn bufpool_flush(
    control: &mut [u64],
    states: &mut [u32],
    names: &[u32],
    pool: &[u8],
    free: &[i32],
    heads: &[i32],
    chain: &[i32],
    rows: &[u32],
    store: &mut [u8],
    counts: &[u16],
    holder: u64,
    buffer: u64,
    answer: &mut [u64],
) -> u32
    ensures { ends result answer.new []
        (lent control.new states.new names.now pool.now free.now
        heads.now chain.now rows.now store.new counts.now)
        ≡ called (λ m. flush m holder buffer)
        (lent control.old states.old names.now pool.now free.now
        heads.now chain.now rows.now store.old counts.now) []
        answer.old }
{
    if answer.len() != ANSWER_WORDS {
        return u32::from(Refusal::Sizes);
    }
    if control.len() != CONTROL_WORDS {
        return refuse(answer);
    }
    let given = flush_buffer(
        read_control(control),
        states,
        names,
        pool,
        free,
        heads,
        chain,
        rows,
        store,
        counts,
        Holder(holder as usize),
        BufferNumber(buffer as usize),
    );
    put_end(control, answer, given)
}

// Writes every dirty page back: answers how many were written.
pub fn bufpool_checkpoint(
    control: &mut [u64],
    states: &mut [u32],
    names: &[u32],
    pool: &[u8],
    free: &[i32],
    heads: &[i32],
    chain: &[i32],
    rows: &[u32],
    store: &mut [u8],
    counts: &[u16],
    answer: &mut [u64],
) -> u32
    ensures { ends result answer.new []
        (lent control.new states.new names.now pool.now free.now
        heads.now chain.now rows.now store.new counts.now)
        ≡ called (λ m. checkpoint m)
        (lent control.old states.old names.now pool.now free.now
        heads.now chain.now rows.now store.old counts.now) []
        answer.old }
{
    if answer.len() != ANSWER_WORDS {
        return u32::from(Refusal::Sizes);
    }
    if control.len() != CONTROL_WORDS {
        return refuse(answer);
    }
    let given = checkpoint_pool(
        read_control(control),
        states,
        names,
        pool,
        free,
        heads,
        chain,
        rows,
        store,
        counts,
    );
    put_end(control, answer, given)
}
