// The check for C: whether lent memory is acceptable to every call but set up. The slices stand one by one, as C lends them.

ghost use Rattle.std.specs.Prelude.{◌≡◌, []};
ghost use Rattle.bufmodel.specs.Lent.{called};
ghost use Rattle.bufbooks.specs.Lent.{check};

use crate::lent::refusal;
use bufmem::control::{ANSWER_WORDS, CONTROL_WORDS, read_control};
use bufmodel::refusal::Refusal;
use bufmodel::view::PoolView;

// 0, or the number of the first place that refuses: 1 sizes and rows, 2 the books.
#[tactic(auto, using(crate::proofs::LentLaws::calls))]
pub fn bufbooks_check(
    control: &[u64],
    states: &[u32],
    names: &[u32],
    pool: &[u8],
    free: &[i32],
    heads: &[i32],
    chain: &[i32],
    rows: &[u32],
    store: &[u8],
    counts: &[u16],
    answer: &[u64],
) -> u32
    ensures { result
        ≡ (called check
        (record {
          control = control.entry.now;
          states = states.now;
          names = names.now;
          pool = pool.now;
          free = free.now;
          heads = heads.now;
          chain = chain.now;
          rows = rows.now;
          store = store.now;
          counts = counts.now;
        })
        [] answer.now).result }
{
    if answer.len() != ANSWER_WORDS {
        return u32::from(Refusal::Sizes);
    }
    if control.len() != CONTROL_WORDS {
        return u32::from(Refusal::Sizes);
    }
    let lent = PoolView {
        control: read_control(control),
        states,
        names,
        pool,
        free,
        heads,
        chain,
        rows,
        store,
        counts,
    };
    match refusal(&lent) {
        Ok(()) => 0,
        Err(why) => u32::from(why),
    }
}
