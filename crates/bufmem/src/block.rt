// Blocks of bytes: one copied into another slice, one cleared. The library's methods, with contracts in blocks, which callers cite.

ghost use Rattle.std.specs.Prelude.{◌≡◌, ◌+◌, ◌*◌, ◌≤◌, length, replicate};
ghost use Rattle.laws.specs.Block.{block, put_block};

// A page or a part of one.
pub fn copy_page(to: &mut [u8], from: &[u8])
    requires { length to.old ≡ length from.now }
    ensures { to.new ≡ from.now }
{
    to.copy_from_slice(from);
}

// Block `t` of `to` becomes block `f` of `from`: a page goes to its place in the store, or comes into its buffer from there.
#[tactic(auto, unfolding(laws::specs::Block::block, laws::specs::Block::put_block))]
pub fn copy_block(to: &mut [u8], t: usize, from: &[u8], f: usize, size: usize)
    requires { (t * size + size ≤ length to.old) × (f * size + size ≤ length from.now) }
    ensures { to.new ≡ put_block size t (block size f from.now) to.old }
{
    let a = t * size;
    let b = f * size;
    copy_page(&mut to[a..a + size], &from[b..b + size]);
}

// Block `t` of `to` becomes zeros.
#[tactic(auto, unfolding(laws::specs::Block::put_block))]
pub fn clear_block(to: &mut [u8], t: usize, size: usize)
    requires { t * size + size ≤ length to.old }
    ensures { to.new ≡ put_block size t (replicate size 0) to.old }
{
    let a = t * size;
    to[a..a + size].fill(0);
}
