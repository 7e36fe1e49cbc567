// A buffer's page: its bytes and its log position, read and written, and its way to the store and from there.

ghost use Rattle.std.specs.Prelude.{◌≡◌, ◌+◌, ◌*◌, ◌≤◌, length, take, drop};
ghost use Rattle.laws.specs.Block.{block, put_block};
ghost use Rattle.bufmodel.specs.Position.{position as page_position, written};
ghost use Rattle.bufmodel.specs.Checksum.{sealed};

use crate::block::{copy_block, copy_page};
use crate::position::{position_at, put_position};
use crate::seal::seal;
use buftag::number::{BlockNumber, BufferNumber};

// Where a page begins in the pool, in bytes.
pub fn page_offset(pool: &[u8], size: usize, buffer: BufferNumber) -> usize
    requires { buffer.0 * size + size ≤ length pool.now }
    ensures { result ≡ buffer.0 * size }
{
    buffer.0 * size
}

// A page's log position.
pub fn page_position(pool: &[u8], size: usize, buffer: BufferNumber) -> u64
    requires { (8 ≤ size) × (buffer.0 * size + size ≤ length pool.now) }
    ensures { result ≡ page_position (block size buffer.0 pool.now) }
{
    position_at(pool, buffer.0 * size)
}

// Fills `out` from a page, from byte `from` on.
pub fn read_page(pool: &[u8], size: usize, buffer: BufferNumber, from: usize, out: &mut [u8])
    requires { (buffer.0 * size + size ≤ length pool.now) × (from + length out.old ≤ size) }
    ensures { out.new ≡ take (length out.old) (drop from (block size buffer.0 pool.now)) }
{
    let a = buffer.0 * size + from;
    copy_page(out, &pool[a..a + out.len()]);
}

// Bytes copied into a page and its log position set.
fn write_bytes(page: &mut [u8], from: usize, bytes: &[u8], position: u64)
    requires { (8 ≤ length page.old) × (from + length bytes.now ≤ length page.old) }
    ensures { page.new ≡ written position from bytes.now page.old }
{
    copy_page(&mut page[from..from + bytes.len()], bytes);
    put_position(page, 0, position);
}

// The same in the page of a buffer.
#[tactic(auto, unfolding(laws::specs::Block::block, laws::specs::Block::put_block))]
pub fn write_page(
    pool: &mut [u8],
    size: usize,
    buffer: BufferNumber,
    from: usize,
    bytes: &[u8],
    position: u64,
)
    requires { (8 ≤ size) × (buffer.0 * size + size ≤ length pool.old) × (from + length bytes.now ≤ size) }
    ensures { pool.new
        ≡ put_block size buffer.0 (written position from bytes.now (block size buffer.0 pool.old))
        pool.old }
{
    let a = buffer.0 * size;
    write_bytes(&mut pool[a..a + size], from, bytes, position);
}

// A page goes to place `g` of the store with the checksum of block `number` of its file.
#[tactic(auto, unfolding(laws::specs::Block::block, laws::specs::Block::put_block))]
pub fn page_to_store(
    store: &mut [u8],
    g: usize,
    pool: &[u8],
    buffer: BufferNumber,
    size: usize,
    number: BlockNumber,
)
    requires { (128 ≤ size) × (g * size + size ≤ length store.old)
        × (buffer.0 * size + size ≤ length pool.now) }
    ensures { store.new
        ≡ put_block size g (sealed number.0 (block size buffer.0 pool.now)) store.old }
{
    copy_block(store, g, pool, buffer.0, size);
    let a = g * size;
    seal(&mut store[a..a + size], number);
}

// A page comes from place `g` of the store: its part of the pool is lent on and filled.
#[tactic(auto, unfolding(laws::specs::Block::block, laws::specs::Block::put_block))]
pub fn page_from_store(pool: &mut [u8], buffer: BufferNumber, store: &[u8], g: usize, size: usize)
    requires { (buffer.0 * size + size ≤ length pool.old) × (g * size + size ≤ length store.now) }
    ensures { pool.new ≡ put_block size buffer.0 (block size g store.now) pool.old }
{
    let a = buffer.0 * size;
    let b = g * size;
    copy_page(&mut pool[a..a + size], &store[b..b + size]);
}
