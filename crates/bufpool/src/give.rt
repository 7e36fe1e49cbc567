// Give back.

ghost use Rattle.std.specs.Prelude.{◌≡◌, []};
ghost use Rattle.bufmodel.specs.Lent.{called};
ghost use Rattle.bufpool.specs.Lent.{lent, ends};
ghost use Rattle.bufmodel.specs.Calls.{give_back};

use crate::answer::{put_answer, refuse};
use bufcalls::give::give_back;
use bufmem::control::{ANSWER_WORDS, CONTROL_WORDS, read_control};
use bufmodel::holder::Holder;
use bufmodel::refusal::Refusal;

// Gives back everything that a holder has.
pub fn bufpool_give_back(
    control: &[u64],
    states: &mut [u32],
    names: &[u32],
    pool: &[u8],
    free: &[i32],
    heads: &[i32],
    chain: &[i32],
    rows: &[u32],
    store: &[u8],
    counts: &mut [u16],
    holder: u64,
    answer: &mut [u64],
) -> u32
    ensures { ends result answer.new []
        (lent control.now states.new names.now pool.now free.now
        heads.now chain.now rows.now store.now counts.new)
        ≡ called (λ m. give_back m holder)
        (lent control.now states.old names.now pool.now free.now
        heads.now chain.now rows.now store.now counts.old) []
        answer.old }
{
    if answer.len() != ANSWER_WORDS {
        return u32::from(Refusal::Sizes);
    }
    if control.len() != CONTROL_WORDS {
        return refuse(answer);
    }
    let given = give_back(
        read_control(control),
        states,
        names,
        pool,
        free,
        heads,
        chain,
        rows,
        store,
        counts,
        Holder(holder as usize),
    );
    put_answer(answer, given)
}
