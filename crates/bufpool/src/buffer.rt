// Unpin, read and write.

ghost use Rattle.std.specs.Prelude.{◌≡◌, []};
ghost use Rattle.bufmodel.specs.Lent.{called};
ghost use Rattle.bufpool.specs.Lent.{lent, ends};
ghost use Rattle.bufmodel.specs.Calls.{unpin, read, write};

use crate::answer::{put_answer, refuse};
use bufcalls::buffer::{read_buffer, unpin_buffer, write_buffer};
use bufmem::control::{ANSWER_WORDS, CONTROL_WORDS, read_control};
use bufmodel::holder::Holder;
use bufmodel::refusal::Refusal;
use bufmodel::view::PoolView;
use buftag::number::BufferNumber;

// Gives back one pin.
pub fn bufpool_unpin(
    control: &[u64],
    states: &mut [u32],
    names: &[u32],
    pool: &[u8],
    free: &[i32],
    heads: &[i32],
    chain: &[i32],
    rows: &[u32],
    store: &[u8],
    counts: &mut [u16],
    holder: u64,
    buffer: u64,
    answer: &mut [u64],
) -> u32
    ensures { ends result answer.new []
        (lent control.now states.new names.now pool.now free.now
        heads.now chain.now rows.now store.now counts.new)
        ≡ called (λ m. unpin m holder buffer)
        (lent control.now states.old names.now pool.now free.now
        heads.now chain.now rows.now store.now counts.old) []
        answer.old }
{
    if answer.len() != ANSWER_WORDS {
        return u32::from(Refusal::Sizes);
    }
    if control.len() != CONTROL_WORDS {
        return refuse(answer);
    }
    let given = unpin_buffer(
        read_control(control),
        states,
        names,
        pool,
        free,
        heads,
        chain,
        rows,
        store,
        counts,
        Holder(holder as usize),
        BufferNumber(buffer as usize),
    );
    put_answer(answer, given)
}

// Fills `out` from a pinned page.
pub fn bufpool_read(
    control: &[u64],
    states: &[u32],
    names: &[u32],
    pool: &[u8],
    free: &[i32],
    heads: &[i32],
    chain: &[i32],
    rows: &[u32],
    store: &[u8],
    counts: &[u16],
    holder: u64,
    buffer: u64,
    from: u64,
    out: &mut [u8],
    answer: &mut [u64],
) -> u32
    ensures { ends result answer.new out.new
        (lent control.now states.now names.now pool.now free.now
        heads.now chain.now rows.now store.now counts.now)
        ≡ called (λ m. read m holder buffer from out.old)
        (lent control.now states.now names.now pool.now free.now
        heads.now chain.now rows.now store.now counts.now) out.old
        answer.old }
{
    if answer.len() != ANSWER_WORDS {
        return u32::from(Refusal::Sizes);
    }
    if control.len() != CONTROL_WORDS {
        return refuse(answer);
    }
    let lent = PoolView {
        control: read_control(control),
        states,
        names,
        pool,
        free,
        heads,
        chain,
        rows,
        store,
        counts,
    };
    let given = read_buffer(
        &lent,
        Holder(holder as usize),
        BufferNumber(buffer as usize),
        from as usize,
        out,
    );
    put_answer(answer, given)
}

// Writes bytes into a pinned page, with their log position.
pub fn bufpool_write(
    control: &[u64],
    states: &mut [u32],
    names: &[u32],
    pool: &mut [u8],
    free: &[i32],
    heads: &[i32],
    chain: &[i32],
    rows: &[u32],
    store: &[u8],
    counts: &[u16],
    holder: u64,
    buffer: u64,
    from: u64,
    bytes: &[u8],
    position: u64,
    answer: &mut [u64],
) -> u32
    ensures { ends result answer.new bytes.now
        (lent control.now states.new names.now pool.new free.now
        heads.now chain.now rows.now store.now counts.now)
        ≡ called (λ m. write m holder buffer from bytes.now position)
        (lent control.now states.old names.now pool.old free.now
        heads.now chain.now rows.now store.now counts.now) bytes.now
        answer.old }
{
    if answer.len() != ANSWER_WORDS {
        return u32::from(Refusal::Sizes);
    }
    if control.len() != CONTROL_WORDS {
        return refuse(answer);
    }
    let given = write_buffer(
        read_control(control),
        states,
        names,
        pool,
        free,
        heads,
        chain,
        rows,
        store,
        counts,
        Holder(holder as usize),
        BufferNumber(buffer as usize),
        from as usize,
        bytes,
        position,
    );
    put_answer(answer, given)
}
