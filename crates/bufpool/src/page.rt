// Pin and peek.

ghost use Rattle.std.specs.Prelude.{◌≡◌, []};
ghost use Rattle.buftag.specs.Name.{name_of};
ghost use Rattle.bufmodel.specs.Lent.{called};
ghost use Rattle.bufpool.specs.Lent.{lent, ends};
ghost use Rattle.bufmodel.specs.Pin.{pin};
ghost use Rattle.bufmodel.specs.Calls.{peek};

use crate::answer::{put_answer, refuse};
use crate::control::put_end;
use bufcalls::peek::peek_at;
use bufmem::control::{ANSWER_WORDS, CONTROL_WORDS, read_control};
use bufmodel::holder::Holder;
use bufmodel::refusal::Refusal;
use bufmodel::view::{PoolView, SlicesMut};
use bufpin::pin::pin_page;
use buftag::name::page_name;

// Pins a page: answers its buffer, hit or loaded, whether a page was written back, and the probes.
pub fn bufpool_pin(
    control: &mut [u64],
    states: &mut [u32],
    names: &mut [u32],
    pool: &mut [u8],
    free: &mut [i32],
    heads: &mut [i32],
    chain: &mut [i32],
    rows: &[u32],
    store: &mut [u8],
    counts: &mut [u16],
    holder: u64,
    tablespace: u32,
    database: u32,
    relation: u32,
    fork: u32,
    block: u32,
    answer: &mut [u64],
) -> u32
    ensures { ends result answer.new []
        (lent control.new states.new names.new pool.new free.new
        heads.new chain.new rows.now store.new counts.new)
        ≡ called (λ m. pin m holder (name_of tablespace database relation fork block))
        (lent control.old states.old names.old pool.old free.old
        heads.old chain.old rows.now store.old counts.old) []
        answer.old }
{
    if answer.len() != ANSWER_WORDS {
        return u32::from(Refusal::Sizes);
    }
    if control.len() != CONTROL_WORDS {
        return refuse(answer);
    }
    let name = page_name(tablespace, database, relation, fork, block);
    let mut lent = SlicesMut {
        states,
        names,
        pool,
        free,
        heads,
        chain,
        rows,
        store,
        counts,
    };
    let given = pin_page(
        read_control(control),
        &mut lent,
        Holder(holder as usize),
        name,
    );
    put_end(control, answer, given)
}

// Where a page lies: 1 for the pool or 0 for the store, and a byte offset.
pub fn bufpool_peek(
    control: &[u64],
    states: &[u32],
    names: &[u32],
    pool: &[u8],
    free: &[i32],
    heads: &[i32],
    chain: &[i32],
    rows: &[u32],
    store: &[u8],
    counts: &[u16],
    tablespace: u32,
    database: u32,
    relation: u32,
    fork: u32,
    block: u32,
    answer: &mut [u64],
) -> u32
    ensures { ends result answer.new []
        (lent control.now states.now names.now pool.now free.now
        heads.now chain.now rows.now store.now counts.now)
        ≡ called (λ m. peek m (name_of tablespace database relation fork block))
        (lent control.now states.now names.now pool.now free.now
        heads.now chain.now rows.now store.now counts.now) []
        answer.old }
{
    if answer.len() != ANSWER_WORDS {
        return u32::from(Refusal::Sizes);
    }
    if control.len() != CONTROL_WORDS {
        return refuse(answer);
    }
    let name = page_name(tablespace, database, relation, fork, block);
    let lent = PoolView {
        control: read_control(control),
        states,
        names,
        pool,
        free,
        heads,
        chain,
        rows,
        store,
        counts,
    };
    let given = peek_at(&lent, name);
    put_answer(answer, given)
}
