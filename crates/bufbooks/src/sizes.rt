// The lent lengths: whether they are those of a pool with its block size and rows.

ghost use Rattle.std.specs.Prelude.{◌≡◌, ◌&&◌, leb};
ghost use Rattle.bufmodel.specs.View.{memory_of};
ghost use Rattle.bufmodel.specs.Sizes.{permitted, max_buffers, max_buckets, sized};

use crate::sound_rows::rows_ok;
use bufmem::counts::MAX_HOLDERS;
use bufmem::rows::{ROW_WORDS, start_of};
use bufmodel::view::PoolView;
use buftag::names::NAME_WORDS;

pub const MAX_BUFFERS: usize = 1024;

pub const MAX_BUCKETS: usize = 4096;

// Whether a block size is permitted.
#[tactic(auto, using(crate::proofs::TurnsLaws::tests), unfolding(bufmodel::specs::Sizes::permitted, laws::specs::Times::times))]
pub fn size_ok(size: usize) -> bool
    ensures { result ≡ permitted size }
{
    matches!(size, 1024 | 2048 | 4096 | 8192 | 16384 | 32768)
}

// Whether there may be so many buffers and buckets.
fn buckets_ok(buffers: usize, buckets: usize) -> bool
    ensures { result ≡ (leb 1 buffers && leb buffers max_buffers && leb buffers buckets && leb buckets max_buckets) }
{
    buffers != 0 && buffers <= MAX_BUFFERS && buffers <= buckets && buckets <= MAX_BUCKETS
}

// Whether the block size, every lent length and the rows are right.
#[tactic(auto, using(crate::proofs::SizesLaws::sizes), unfolding(bufmodel::specs::Sizes::sized, bufmodel::specs::Sizes::sized_for))]
pub fn sizes_ok(lent: &PoolView<'_>) -> bool
    ensures { result ≡ sized (memory_of lent.now) }
{
    let n = lent.states.len();
    let size = lent.control.size;
    size_ok(size)
        && buckets_ok(n, lent.heads.len())
        && lent.names.len() == NAME_WORDS * n
        && lent.pool.len() == n * size
        && lent.free.len() == n
        && lent.chain.len() == n
        && lent.counts.len() == n * MAX_HOLDERS
        && rows_ok(lent.rows)
        && lent.store.len() as u64 == start_of(lent.rows, lent.rows.len() / ROW_WORDS) * size as u64
}
