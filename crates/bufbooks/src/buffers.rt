// The pass over the buffers: each one's log position, name and place in its chain.

ghost use Rattle.std.specs.Prelude.{◌≡◌, [], ◌+◌, ◌*◌, ◌≤◌, ◌<◌, length};
ghost use Rattle.laws.specs.Every.{all};
ghost use Rattle.buftag.specs.Bucket.{Masks};
ghost use Rattle.buftag.specs.Names.{name_words};
ghost use Rattle.bufmodel.specs.Rows.{row_of};
ghost use Rattle.bufmodel.specs.Memory.{memory};
ghost use Rattle.bufmodel.specs.Sizes.{max_buffers, max_buckets};
ghost use Rattle.bufmem.specs.Rows.{found_row};
ghost use Rattle.bufbooks.specs.Buffers.{low_test, held_test, buffer_test};

use crate::guesses::slot_of;
use crate::sound_rows::SoundRows;
use crate::tables::Tables;
use bufmem::page::page_position;
use bufmem::rows::{ROW_WORDS, find_row, has_block, is_file};
use bufmem::word::{is_dirty, is_empty};
use bufmodel::control::Control;
use buftag::bucket::{bucket_by, mask_of};
use buftag::check::is_first;
use buftag::name::{FileName, hash_short};
use buftag::names::{holds, no_name, stored};
use buftag::number::BufferNumber;

// Whether a buffer in use is clean, or its log position is at most inserted.
#[tactic(auto, unfolding(crate::specs::Buffers::low_test))]
fn is_low(control: Control, pool: &[u8], w: u32, buffer: BufferNumber) -> bool
    requires { (8 ≤ control.size) × (buffer.0 * control.size + control.size ≤ length pool.now) }
    ensures { result ≡ low_test control pool.now w buffer.0 }
{
    !is_dirty(w) || page_position(pool, control.size, buffer) <= control.inserted
}

// The row of a file, by a guess that need not be right.
fn row_near(rows: SoundRows<'_>, guess: u8, file: FileName) -> Option<usize>
    ensures { found_row result ≡ row_of rows.entry.words.now file }
{
    let rows = rows.words;
    let near = usize::from(guess);
    if near < rows.len() / ROW_WORDS && is_file(rows, near, file) {
        return Some(near);
    }
    find_row(rows, file)
}

// Whether a buffer's name names a block that its file has, and a look-up of it finds the buffer.
#[tactic(auto, using(crate::proofs::BuffersLaws::held), unfolding(bufmodel::specs::Rows::files))]
fn held_ok(
    names: &[u32],
    heads: &[i32],
    chain: &[i32],
    tables: &Tables<'_>,
    mask: Option<u32>,
    buffer: BufferNumber,
) -> bool
    requires { (0 < length heads.now) × (length heads.now ≤ max_buckets) × (length chain.now ≤ max_buffers)
        × Masks (length heads.now) mask
        × (length names.now ≡ name_words * length chain.now) × (buffer.0 < length chain.now) }
    ensures { result ≡ held_test names.now heads.now chain.now tables.now.rows.words.now buffer.0 }
{
    let name = stored(names, buffer);
    let guess = tables.guesses[slot_of(name.file)];
    let Some(row) = row_near(tables.rows, guess, name.file) else {
        return false;
    };
    // tested by itself: where the block is not there, no hash is made
    if !has_block(tables.rows.words, row, name.block) {
        return false;
    }
    let hash = hash_short(tables.hashes[row], name.block);
    let b = bucket_by(hash, heads.len() as u32, mask) as usize;
    is_first(chain, names, heads[b], buffer)
}

// Whether every buffer's page and name are sound.
#[tactic(auto, using(crate::proofs::TurnsLaws::turns_all), unfolding(crate::specs::Buffers::buffer_test, bufmodel::specs::Books::empty_at))]
pub fn buffers_ok(
    control: Control,
    states: &[u32],
    names: &[u32],
    pool: &[u8],
    heads: &[i32],
    chain: &[i32],
    tables: &Tables<'_>,
) -> bool
    requires { (8 ≤ control.size) × (0 < length heads.now) × (length heads.now ≤ max_buckets) × (length states.now ≤ max_buffers)
        × (length names.now ≡ name_words * length states.now) × (length pool.now ≡ length states.now * control.size)
        × (length chain.now ≡ length states.now) }
    ensures { result
        ≡ all (length states.now)
        (buffer_test
        (memory control states.now names.now pool.now [] heads.now chain.now
        tables.now.rows.words.now [])) }
{
    let mask = mask_of(heads.len() as u32);
    for (i, &w) in states.iter().enumerate() {
        let buffer = BufferNumber(i);
        let sound = if is_empty(w) {
            holds(names, buffer, no_name())
        } else {
            is_low(control, pool, w, buffer) && held_ok(names, heads, chain, tables, mask, buffer)
        };
        if !sound {
            return false;
        }
    }
    true
}
