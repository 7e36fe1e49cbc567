// Peek: where a page lies, in the pool if it is held, else in the store, whose block is verified.

ghost use Rattle.std.specs.Prelude.{◌≡◌};
ghost use Rattle.bufmodel.specs.Memory.{memory, with_counts};
ghost use Rattle.bufmodel.specs.View.{memory_of};
ghost use Rattle.bufmodel.specs.Answer.{peeked_number, peeked_words, peeked_of};
ghost use Rattle.bufmodel.specs.Calls.{part, peek};

use bufbooks::lent::refusal;
use bufmem::page::page_offset;
use bufmem::seal::passes_block;
use bufmem::seek::seek;
use bufmodel::answer::Peeked;
use bufmodel::control::Control;
use bufmodel::refusal::Refusal;
use bufmodel::view::PoolView;
use buftag::lookup::look_up;
use buftag::name::PageName;

pub fn peek_at(lent: &PoolView<'_>, name: PageName) -> Result<Peeked, Refusal>
    ensures value { result ≡ peeked_of (peek (memory_of lent.now) name) }
    ensures number { peeked_number result ≡ (peek (memory_of lent.now) name).refusal }
    ensures words { peeked_words result ≡ (peek (memory_of lent.now) name).answer }
{
    refusal(lent)?;
    let g = seek(lent.rows, name)?;
    let size = lent.control.size;
    let Some(buffer) = look_up(lent.heads, lent.chain, lent.names, name) else {
        if !passes_block(lent.store, g, size, name.block) {
            return Err(Refusal::Checksum);
        }
        return Ok(Peeked::InStore((g * size) as u64));
    };
    Ok(Peeked::InPool(page_offset(lent.pool, size, buffer) as u64))
}

// The part itself: bytes of the pool or of the store, whichever has the page, and none where the call is refused. The slices stand one by
// one, for the part keeps pool and store lent, and nothing else.
pub fn peek_part<'a>(
    control: Control,
    states: &[u32],
    names: &[u32],
    pool: &'a [u8],
    free: &[i32],
    heads: &[i32],
    chain: &[i32],
    rows: &[u32],
    store: &'a [u8],
    counts: &[u16],
    name: PageName,
) -> &'a [u8]
    ensures { result.now
        ≡ part
        (peek
        (with_counts counts.now
        (memory control states.now names.now pool.now free.now heads.now
        chain.now rows.now store.now)) name) }
{
    let lent = PoolView {
        control,
        states,
        names,
        pool,
        free,
        heads,
        chain,
        rows,
        store,
        counts,
    };
    let size = control.size;
    match peek_at(&lent, name) {
        Ok(Peeked::InPool(at)) => {
            let from = at as usize;
            &pool[from..from + size]
        }
        Ok(Peeked::InStore(at)) => {
            let from = at as usize;
            &store[from..from + size]
        }
        Err(_) => &pool[0..0],
    }
}
