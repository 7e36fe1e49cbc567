// A holder's calls on a buffer that it has a pin on: unpin, read, write.

ghost use Rattle.std.specs.Prelude.{◌≡◌, [], true, ◌||◌, ◌∷◌, ◌+◌, ◌*◌, ◌≤◌, eqb, leb, ltb, length};
ghost use Rattle.laws.specs.Block.{block};
ghost use Rattle.bufmodel.specs.Word.{pinned};
ghost use Rattle.bufmodel.specs.Position.{position as page_position};
ghost use Rattle.bufmodel.specs.Memory.{memory, with_counts};
ghost use Rattle.bufmodel.specs.View.{memory_of};
ghost use Rattle.bufmodel.specs.Outcome.{place, refusal_of, checked};
ghost use Rattle.bufmodel.specs.Answer.{accepted_number, accepted_words, accepted_of};
ghost use Rattle.bufmodel.specs.Calls.{buffer_places, less_word, unpin, read, write};

use bufbooks::lent::refusal;
use bufmem::counts::{count_of, is_holder, put_count};
use bufmem::page::{page_position, read_page, write_page};
use bufmem::state::{is_buffer, put_state, state_of};
use bufmem::word::{make_dirty, pin_less};
use bufmodel::control::Control;
use bufmodel::holder::Holder;
use bufmodel::refusal::Refusal;
use bufmodel::view::PoolView;
use buftag::number::BufferNumber;

// The places 1, 2, 19, 7 and 8.
pub fn buffer_refusal(
    lent: &PoolView<'_>,
    holder: Holder,
    buffer: BufferNumber,
) -> Result<(), Refusal>
    ensures { accepted_number result
        ≡ checked (memory_of lent.now) (buffer_places (memory_of lent.now) holder.0 buffer.0 []) }
{
    refusal(lent)?;
    if !is_holder(holder) {
        return Err(Refusal::NoHolder);
    }
    if !is_buffer(lent.states, buffer) {
        return Err(Refusal::NoBuffer);
    }
    if count_of(lent.counts, holder, buffer) == 0 {
        return Err(Refusal::NotPinned);
    }
    Ok(())
}

// The word of a buffer on which a holder had so many pins and unpins one: pin count - 1 with its last one.
fn less_word(count: u16, w: u32) -> u32
    requires { pinned w ≡ true }
    ensures { result ≡ less_word count w }
{
    if count == 1 { pin_less(w) } else { w }
}

// The holder's count - 1, and with its last pin the word's.
pub fn unpin_buffer(
    control: Control,
    states: &mut [u32],
    names: &[u32],
    pool: &[u8],
    free: &[i32],
    heads: &[i32],
    chain: &[i32],
    rows: &[u32],
    store: &[u8],
    counts: &mut [u16],
    holder: Holder,
    buffer: BufferNumber,
) -> Result<(), Refusal>
    ensures value { result
        ≡ accepted_of
        (unpin
        (with_counts counts.old
        (memory control states.old names.now pool.now free.now heads.now
        chain.now rows.now store.now)) holder.0 buffer.0) }
    ensures number { accepted_number result
        ≡ (unpin
        (with_counts counts.old
        (memory control states.old names.now pool.now free.now heads.now
        chain.now rows.now store.now)) holder.0 buffer.0).refusal }
    ensures words { accepted_words result
        ≡ (unpin
        (with_counts counts.old
        (memory control states.old names.now pool.now free.now heads.now
        chain.now rows.now store.now)) holder.0 buffer.0).answer }
    ensures store_after { with_counts counts.new
        (memory control states.new names.now pool.now free.now
        heads.now chain.now rows.now store.now)
        ≡ (unpin
        (with_counts counts.old
        (memory control states.old names.now pool.now free.now heads.now
        chain.now rows.now store.now)) holder.0 buffer.0).after }
{
    let lent = PoolView {
        control,
        states,
        names,
        pool,
        free,
        heads,
        chain,
        rows,
        store,
        counts,
    };
    buffer_refusal(&lent, holder, buffer)?;
    let count = count_of(counts, holder, buffer);
    let word = less_word(count, state_of(states, buffer));
    put_state(states, buffer, word);
    put_count(counts, holder, buffer, count - 1);
    Ok(())
}

// Whether a read's or a write's bytes lie within a page: the sum is not made, since it need not fit.
fn range_ok(size: usize, from: usize, length: usize) -> bool
    ensures { result ≡ leb (from + length) size }
{
    from <= size && length <= size - from
}

// Fills `out` from the page.
pub fn read_buffer(
    lent: &PoolView<'_>,
    holder: Holder,
    buffer: BufferNumber,
    from: usize,
    out: &mut [u8],
) -> Result<(), Refusal>
    ensures value { result ≡ accepted_of (read (memory_of lent.now) holder.0 buffer.0 from out.old) }
    ensures number { accepted_number result ≡ (read (memory_of lent.now) holder.0 buffer.0 from out.old).refusal }
    ensures words { accepted_words result ≡ (read (memory_of lent.now) holder.0 buffer.0 from out.old).answer }
    ensures out_after { out.new ≡ (read (memory_of lent.now) holder.0 buffer.0 from out.old).bytes }
{
    buffer_refusal(lent, holder, buffer)?;
    let size = lent.control.size;
    if !range_ok(size, from, out.len()) {
        return Err(Refusal::Range);
    }
    read_page(lent.pool, size, buffer, from, out);
    Ok(())
}

// The places 9 to 12 of a write, for a buffer that is there.
fn write_refusal(
    control: Control,
    pool: &[u8],
    buffer: BufferNumber,
    from: usize,
    bytes: &[u8],
    position: u64,
) -> Result<(), Refusal>
    requires { (8 ≤ control.size) × (buffer.0 * control.size + control.size ≤ length pool.now) }
    ensures { accepted_number result
        ≡ refusal_of
        (place 9 (ltb control.size (from + length bytes.now) || ltb from 8)
        ∷ place 10 (eqb (length bytes.now) 0)
        ∷ place 11 (ltb control.inserted position)
        ∷ place 12 (ltb position (page_position (block control.size buffer.0 pool.now)))
        ∷ []) }
{
    if !range_ok(control.size, from, bytes.len()) {
        return Err(Refusal::Range);
    }
    if from < 8 {
        return Err(Refusal::Range);
    }
    if bytes.is_empty() {
        return Err(Refusal::NoBytes);
    }
    if position > control.inserted {
        return Err(Refusal::NotInserted);
    }
    if position < page_position(pool, control.size, buffer) {
        return Err(Refusal::Earlier);
    }
    Ok(())
}

// Copies bytes into the page, sets its log position, and makes it dirty.
pub fn write_buffer(
    control: Control,
    states: &mut [u32],
    names: &[u32],
    pool: &mut [u8],
    free: &[i32],
    heads: &[i32],
    chain: &[i32],
    rows: &[u32],
    store: &[u8],
    counts: &[u16],
    holder: Holder,
    buffer: BufferNumber,
    from: usize,
    bytes: &[u8],
    position: u64,
) -> Result<(), Refusal>
    ensures value { result
        ≡ accepted_of
        (write
        (with_counts counts.now
        (memory control states.old names.now pool.old free.now heads.now
        chain.now rows.now store.now)) holder.0 buffer.0 from bytes.now position) }
    ensures number { accepted_number result
        ≡ (write
        (with_counts counts.now
        (memory control states.old names.now pool.old free.now heads.now
        chain.now rows.now store.now)) holder.0 buffer.0 from bytes.now
        position).refusal }
    ensures words { accepted_words result
        ≡ (write
        (with_counts counts.now
        (memory control states.old names.now pool.old free.now heads.now
        chain.now rows.now store.now)) holder.0 buffer.0 from bytes.now
        position).answer }
    ensures store_after { with_counts counts.now
        (memory control states.new names.now pool.new free.now
        heads.now chain.now rows.now store.now)
        ≡ (write
        (with_counts counts.now
        (memory control states.old names.now pool.old free.now heads.now
        chain.now rows.now store.now)) holder.0 buffer.0 from bytes.now
        position).after }
{
    let lent = PoolView {
        control,
        states,
        names,
        pool,
        free,
        heads,
        chain,
        rows,
        store,
        counts,
    };
    buffer_refusal(&lent, holder, buffer)?;
    write_refusal(control, pool, buffer, from, bytes, position)?;
    write_page(pool, control.size, buffer, from, bytes, position);
    let word = make_dirty(state_of(states, buffer));
    put_state(states, buffer, word);
    Ok(())
}
