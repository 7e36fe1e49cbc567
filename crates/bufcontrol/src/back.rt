// Write-back: flush and checkpoint. Both change words and store alone, so that the other slices are lent to look at, one by one.

ghost use Rattle.std.specs.Prelude.{◌≡◌};
ghost use Rattle.bufmodel.specs.Memory.{memory, with_counts};
ghost use Rattle.bufmodel.specs.Answer.{written_number, written_words, written_of};
ghost use Rattle.bufmodel.specs.Calls.{flush, checkpoint};

use crate::store::store_back;
use bufcalls::checkpoint::checkpoint_pool;
use bufcalls::flush::flush_buffer;
use bufmodel::control::Control;
use bufmodel::holder::Holder;
use bufmodel::refusal::Refusal;
use buftag::number::BufferNumber;

// Writes a pinned page back if it is dirty.
pub fn flush(
    control: &mut Control,
    states: &mut [u32],
    names: &[u32],
    pool: &[u8],
    free: &[i32],
    heads: &[i32],
    chain: &[i32],
    rows: &[u32],
    store: &mut [u8],
    counts: &[u16],
    holder: Holder,
    buffer: BufferNumber,
) -> Result<u64, Refusal>
    ensures value { result
        ≡ written_of
        (flush
        (with_counts counts.now
        (memory control.old states.old names.now pool.now free.now
        heads.now chain.now rows.now store.old)) holder.0 buffer.0) }
    ensures number { written_number result
        ≡ (flush
        (with_counts counts.now
        (memory control.old states.old names.now pool.now free.now
        heads.now chain.now rows.now store.old)) holder.0 buffer.0).refusal }
    ensures words { written_words result
        ≡ (flush
        (with_counts counts.now
        (memory control.old states.old names.now pool.now free.now
        heads.now chain.now rows.now store.old)) holder.0 buffer.0).answer }
    ensures store_after { with_counts counts.now
        (memory control.new states.new names.now pool.now free.now
        heads.now chain.now rows.now store.new)
        ≡ (flush
        (with_counts counts.now
        (memory control.old states.old names.now pool.now free.now
        heads.now chain.now rows.now store.old)) holder.0 buffer.0).after }
{
    let end = flush_buffer(
        *control, states, names, pool, free, heads, chain, rows, store, counts, holder, buffer,
    )?;
    store_back(control, end.control);
    Ok(end.answer)
}

// Writes every dirty page back, rising.
pub fn checkpoint(
    control: &mut Control,
    states: &mut [u32],
    names: &[u32],
    pool: &[u8],
    free: &[i32],
    heads: &[i32],
    chain: &[i32],
    rows: &[u32],
    store: &mut [u8],
    counts: &[u16],
) -> Result<u64, Refusal>
    ensures value { result
        ≡ written_of
        (checkpoint
        (with_counts counts.now
        (memory control.old states.old names.now pool.now free.now
        heads.now chain.now rows.now store.old))) }
    ensures number { written_number result
        ≡ (checkpoint
        (with_counts counts.now
        (memory control.old states.old names.now pool.now free.now
        heads.now chain.now rows.now store.old))).refusal }
    ensures words { written_words result
        ≡ (checkpoint
        (with_counts counts.now
        (memory control.old states.old names.now pool.now free.now
        heads.now chain.now rows.now store.old))).answer }
    ensures store_after { with_counts counts.now
        (memory control.new states.new names.now pool.now free.now
        heads.now chain.now rows.now store.new)
        ≡ (checkpoint
        (with_counts counts.now
        (memory control.old states.old names.now pool.now free.now
        heads.now chain.now rows.now store.old))).after }
{
    let written = checkpoint_pool(
        *control, states, names, pool, free, heads, chain, rows, store, counts,
    )?;
    store_back(control, written.control);
    Ok(written.answer)
}
