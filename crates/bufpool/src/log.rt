// The log positions.

ghost use Rattle.std.specs.Prelude.{◌≡◌, []};
ghost use Rattle.bufmodel.specs.Lent.{called};
ghost use Rattle.bufpool.specs.Lent.{lent, ends};
ghost use Rattle.bufmodel.specs.Calls.{log_inserted, log_flushed};

use crate::answer::refuse;
use crate::control::put_record;
use bufcalls::log::{log_flushed, log_inserted};
use bufmem::control::{ANSWER_WORDS, CONTROL_WORDS, read_control};
use bufmodel::refusal::Refusal;
use bufmodel::view::PoolView;

// The log is inserted up to a position.
pub fn bufpool_log_inserted(
    control: &mut [u64],
    states: &[u32],
    names: &[u32],
    pool: &[u8],
    free: &[i32],
    heads: &[i32],
    chain: &[i32],
    rows: &[u32],
    store: &[u8],
    counts: &[u16],
    position: u64,
    answer: &mut [u64],
) -> u32
    ensures { ends result answer.new []
        (lent control.new states.now names.now pool.now free.now
        heads.now chain.now rows.now store.now counts.now)
        ≡ called (λ m. log_inserted m position)
        (lent control.old states.now names.now pool.now free.now
        heads.now chain.now rows.now store.now counts.now) []
        answer.old }
{
    if answer.len() != ANSWER_WORDS {
        return u32::from(Refusal::Sizes);
    }
    if control.len() != CONTROL_WORDS {
        return refuse(answer);
    }
    let lent = PoolView {
        control: read_control(control),
        states,
        names,
        pool,
        free,
        heads,
        chain,
        rows,
        store,
        counts,
    };
    let given = log_inserted(&lent, position);
    put_record(control, answer, given)
}

// The log is flushed up to a position.
pub fn bufpool_log_flushed(
    control: &mut [u64],
    states: &[u32],
    names: &[u32],
    pool: &[u8],
    free: &[i32],
    heads: &[i32],
    chain: &[i32],
    rows: &[u32],
    store: &[u8],
    counts: &[u16],
    position: u64,
    answer: &mut [u64],
) -> u32
    ensures { ends result answer.new []
        (lent control.new states.now names.now pool.now free.now
        heads.now chain.now rows.now store.now counts.now)
        ≡ called (λ m. log_flushed m position)
        (lent control.old states.now names.now pool.now free.now
        heads.now chain.now rows.now store.now counts.now) []
        answer.old }
{
    if answer.len() != ANSWER_WORDS {
        return u32::from(Refusal::Sizes);
    }
    if control.len() != CONTROL_WORDS {
        return refuse(answer);
    }
    let lent = PoolView {
        control: read_control(control),
        states,
        names,
        pool,
        free,
        heads,
        chain,
        rows,
        store,
        counts,
    };
    let given = log_flushed(&lent, position);
    put_record(control, answer, given)
}
