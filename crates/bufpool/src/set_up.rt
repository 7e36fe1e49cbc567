// Set up.

ghost use Rattle.std.specs.Prelude.{◌≡◌, []};
ghost use Rattle.bufmodel.specs.Lent.{called};
ghost use Rattle.bufpool.specs.Lent.{lent, ends};
ghost use Rattle.bufmodel.specs.Calls.{set_up};

use crate::answer::refuse;
use crate::control::put_record;
use bufcalls::set_up::set_up_pool;
use bufmem::control::{ANSWER_WORDS, CONTROL_WORDS, read_control};
use bufmodel::refusal::Refusal;

// Sets up an empty pool.
pub fn bufpool_set_up(
    control: &mut [u64],
    states: &mut [u32],
    names: &mut [u32],
    pool: &[u8],
    free: &mut [i32],
    heads: &mut [i32],
    chain: &mut [i32],
    rows: &[u32],
    store: &[u8],
    counts: &mut [u16],
    page_size: u64,
    position: u64,
    cap: u64,
    answer: &mut [u64],
) -> u32
    ensures { ends result answer.new []
        (lent control.new states.new names.new pool.now free.new
        heads.new chain.new rows.now store.now counts.new)
        ≡ called (λ m. set_up m page_size position cap)
        (lent control.old states.old names.old pool.now free.old
        heads.old chain.old rows.now store.now counts.old) []
        answer.old }
{
    if answer.len() != ANSWER_WORDS {
        return u32::from(Refusal::Sizes);
    }
    if control.len() != CONTROL_WORDS {
        return refuse(answer);
    }
    let given = set_up_pool(
        read_control(control),
        states,
        names,
        pool,
        free,
        heads,
        chain,
        rows,
        store,
        counts,
        page_size as usize,
        position,
        cap as usize,
    );
    put_record(control, answer, given)
}
