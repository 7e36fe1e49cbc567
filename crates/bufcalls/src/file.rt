// Calls on a file: extend and drop.

ghost use Rattle.std.specs.Prelude.{◌≡◌, true, false, length, ◌*◌, ◌<◌};
ghost use Rattle.bufmodel.specs.Memory.{memory, with_counts};
ghost use Rattle.bufmodel.specs.Sizes.{sized};
ghost use Rattle.bufmodel.specs.Books.{sound};
ghost use Rattle.bufmodel.specs.Moves.{release_up_to};
ghost use Rattle.bufmodel.specs.Answer.{extended_number, extended_words, extended_of};
ghost use Rattle.bufmodel.specs.Answer.{accepted_number, accepted_words, accepted_of, done_of, record_of};
ghost use Rattle.bufmodel.specs.Calls.{extend, drop_file};
ghost use Rattle.buftag.specs.Names.{name_words};
ghost use Rattle.bufcalls.specs.File.{held_of, pinned_of};

use bufbooks::lent::refusal;
use bufmem::block::clear_block;
use bufmem::rows::{block_place, blocks_at, capacity_at, find_row, set_blocks};
use bufmem::state::state_of;
use bufmem::word::{is_empty, is_pinned};
use bufmodel::control::Control;
use bufmodel::refusal::Refusal;
use bufmodel::view::PoolView;
use bufmoves::exchange::release_buffer;
use buftag::name::{FileName, same_file};
use buftag::names::stored;
use buftag::number::{BlockNumber, BufferNumber};

// The next block of a file becomes zeros in the store.
pub fn extend_file(
    control: Control,
    states: &[u32],
    names: &[u32],
    pool: &[u8],
    free: &[i32],
    heads: &[i32],
    chain: &[i32],
    rows: &mut [u32],
    store: &mut [u8],
    counts: &[u16],
    file: FileName,
) -> Result<BlockNumber, Refusal>
    ensures value { result
        ≡ extended_of
        (extend
        (with_counts counts.now
        (memory control states.now names.now pool.now free.now heads.now
        chain.now rows.old store.old)) file) }
    ensures number { extended_number result
        ≡ (extend
        (with_counts counts.now
        (memory control states.now names.now pool.now free.now heads.now
        chain.now rows.old store.old)) file).refusal }
    ensures words { extended_words result
        ≡ (extend
        (with_counts counts.now
        (memory control states.now names.now pool.now free.now heads.now
        chain.now rows.old store.old)) file).answer }
    ensures store_after { with_counts counts.now
        (memory control states.now names.now pool.now free.now
        heads.now chain.now rows.new store.new)
        ≡ (extend
        (with_counts counts.now
        (memory control states.now names.now pool.now free.now heads.now
        chain.now rows.old store.old)) file).after }
{
    let lent = PoolView {
        control,
        states,
        names,
        pool,
        free,
        heads,
        chain,
        rows,
        store,
        counts,
    };
    refusal(&lent)?;
    let row = find_row(rows, file).ok_or(Refusal::NoFile)?;
    let blocks = blocks_at(rows, row);
    if blocks == capacity_at(rows, row) {
        return Err(Refusal::FileFull);
    }
    let block = BlockNumber(blocks);
    clear_block(store, block_place(rows, row, block), control.size);
    set_blocks(rows, row, blocks + 1);
    Ok(block)
}

// Whether a buffer holds a page of a file.
fn is_of_file(states: &[u32], names: &[u32], file: FileName, buffer: BufferNumber) -> bool
    requires { (buffer.0 < length states.now) × (length names.now ≡ name_words * length states.now) }
    ensures { result ≡ held_of states.now names.now file buffer.0 }
{
    !is_empty(state_of(states, buffer)) && same_file(stored(names, buffer).file, file)
}

// Whether one of a file's pages is pinned.
fn any_pinned(states: &[u32], names: &[u32], file: FileName) -> bool
    requires { length names.now ≡ name_words * length states.now }
    ensures { result ≡ pinned_of states.now names.now file }
{
    for i in 0..states.len() {
        let buffer = BufferNumber(i);
        if is_of_file(states, names, file, buffer) && is_pinned(state_of(states, buffer)) {
            return true;
        }
    }
    false
}

// A file's buffers, none of which is pinned, give up their pages, rising.
fn release_file(
    control: Control,
    states: &mut [u32],
    names: &mut [u32],
    pool: &[u8],
    free: &mut [i32],
    heads: &mut [i32],
    chain: &mut [i32],
    rows: &[u32],
    store: &[u8],
    counts: &[u16],
    file: FileName,
) -> Control
    requires { (sized
        (with_counts counts.now
        (memory control states.old names.old pool.now free.old heads.old chain.old rows.now store.now)) ≡ true)
        × (sound
        (with_counts counts.now
        (memory control states.old names.old pool.now free.old heads.old chain.old rows.now store.now)) ≡ true)
        × (pinned_of states.old names.old file ≡ false) }
    ensures { with_counts counts.now
        (memory result states.new names.new pool.now free.new
        heads.new chain.new rows.now store.now)
        ≡ release_up_to file (length states.old)
        (with_counts counts.now
        (memory control states.old names.old pool.now free.old heads.old
        chain.old rows.now store.now)) }
{
    let mut after = control;
    for i in 0..states.len() {
        let buffer = BufferNumber(i);
        if is_of_file(states, names, file, buffer) {
            after = release_buffer(after, states, names, free, heads, chain, buffer);
        }
    }
    after
}

// A file's buffers are emptied, and it has no blocks.
pub fn drop_file(
    control: Control,
    states: &mut [u32],
    names: &mut [u32],
    pool: &[u8],
    free: &mut [i32],
    heads: &mut [i32],
    chain: &mut [i32],
    rows: &mut [u32],
    store: &[u8],
    counts: &[u16],
    file: FileName,
) -> Result<Control, Refusal>
    ensures value { done_of result
        ≡ accepted_of
        (drop_file
        (with_counts counts.now
        (memory control states.old names.old pool.now free.old heads.old
        chain.old rows.old store.now)) file) }
    ensures number { accepted_number (done_of result)
        ≡ (drop_file
        (with_counts counts.now
        (memory control states.old names.old pool.now free.old heads.old
        chain.old rows.old store.now)) file).refusal }
    ensures words { accepted_words (done_of result)
        ≡ (drop_file
        (with_counts counts.now
        (memory control states.old names.old pool.now free.old heads.old
        chain.old rows.old store.now)) file).answer }
    ensures store_after { with_counts counts.now
        (memory (record_of control result) states.new names.new pool.now free.new
        heads.new chain.new rows.new store.now)
        ≡ (drop_file
        (with_counts counts.now
        (memory control states.old names.old pool.now free.old heads.old
        chain.old rows.old store.now)) file).after }
{
    let lent = PoolView {
        control,
        states,
        names,
        pool,
        free,
        heads,
        chain,
        rows,
        store,
        counts,
    };
    refusal(&lent)?;
    let row = find_row(rows, file).ok_or(Refusal::NoFile)?;
    if any_pinned(states, names, file) {
        return Err(Refusal::FilePinned);
    }
    let after = release_file(
        control, states, names, pool, free, heads, chain, rows, store, counts, file,
    );
    set_blocks(rows, row, 0);
    Ok(after)
}
