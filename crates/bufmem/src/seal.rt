// A page's checksum set where it goes to the store, and verified where it comes from there.

ghost use Rattle.std.specs.Prelude.{◌≡◌, ◌+◌, ◌*◌, ◌≤◌, length};
ghost use Rattle.laws.specs.Block.{block};
ghost use Rattle.bufmodel.specs.Checksum.{all_zero, sealed, passes};

use crate::checksum::page_checksum;
use buftag::number::BlockNumber;

// Whether every byte is 0: a loop without an exit, of which the compiler makes vectors.
fn is_clear(bytes: &[u8]) -> bool
    ensures { result ≡ all_zero bytes.now }
{
    let mut clear = true;
    for &b in bytes {
        clear &= b == 0;
    }
    clear
}

// The same of a page, of which most have a byte in the first row that isn't 0.
fn is_blank(page: &[u8]) -> bool
    requires { 128 ≤ length page.now }
    ensures { result ≡ all_zero page.now }
{
    is_clear(&page[..128]) && is_clear(page)
}

// The page of block `number` of its file gets its checksum, low byte first; a page of zeros has none.
pub fn seal(page: &mut [u8], number: BlockNumber)
    requires { 128 ≤ length page.old }
    ensures { page.new ≡ sealed number.0 page.old }
{
    if is_blank(page) {
        return;
    }
    let s = page_checksum(page, number) as u16;
    page[8..10].copy_from_slice(&s.to_le_bytes());
}

// Whether a page passes as block `number` of its file. A checksum is never 0, so without one only a page of zeros does: one pass
// either way.
fn passes_page(page: &[u8], number: BlockNumber) -> bool
    requires { 128 ≤ length page.now }
    ensures { result ≡ passes number.0 page.now }
{
    let s = u16::from_le_bytes([page[8], page[9]]);
    if s == 0 {
        is_blank(page)
    } else {
        u32::from(s) == page_checksum(page, number)
    }
}

// The same of the block at place `g` of the store.
#[tactic(auto, unfolding(laws::specs::Block::block))]
pub fn passes_block(store: &[u8], g: usize, size: usize, number: BlockNumber) -> bool
    requires { (128 ≤ size) × (g * size + size ≤ length store.now) }
    ensures { result ≡ passes number.0 (block size g store.now) }
{
    let a = g * size;
    passes_page(&store[a..a + size], number)
}
