// Checkpoint: every dirty page is written back, rising.

ghost use Rattle.std.specs.Prelude.{◌≡◌, [], length, get_or};
ghost use Rattle.laws.specs.Sum.{count};
ghost use Rattle.bufmodel.specs.Word.{dirty};
ghost use Rattle.bufmodel.specs.Memory.{memory, with_counts};
ghost use Rattle.bufmodel.specs.Moves.{write_up_to};
ghost use Rattle.bufmodel.specs.Answer.{written_number, written_words, written_of, answer_of, ended_control};
ghost use Rattle.bufmodel.specs.Calls.{checkpoint};
ghost use Rattle.bufcalls.specs.Checkpoint.{Stored};

use bufbooks::lent::refusal;
use bufmem::word::is_dirty;
use bufmodel::answer::Ended;
use bufmodel::control::Control;
use bufmodel::refusal::Refusal;
use bufmodel::view::PoolView;
use bufmoves::back::write_back;
use buftag::number::BufferNumber;

fn count_dirty(states: &[u32]) -> u64
    ensures { result ≡ count (length states.now) (λ i. dirty (get_or states.now i 0)) }
{
    let mut n = 0u64;
    for &w in states {
        if is_dirty(w) {
            n += 1;
        }
    }
    n
}

fn write_all(
    control: Control,
    states: &mut [u32],
    names: &[u32],
    pool: &[u8],
    rows: &[u32],
    store: &mut [u8],
) -> Control
    requires { Stored (memory control states.old names.now pool.now [] [] [] rows.now store.old) }
    ensures { memory result states.new names.now pool.now [] [] [] rows.now store.new
        ≡ write_up_to (length states.old)
        (memory control states.old names.now pool.now [] [] [] rows.now
        store.old) }
{
    let mut after = control;
    for i in 0..states.len() {
        if is_dirty(states[i]) {
            after = write_back(after, states, names, pool, rows, store, BufferNumber(i));
        }
    }
    after
}

pub fn checkpoint_pool(
    control: Control,
    states: &mut [u32],
    names: &[u32],
    pool: &[u8],
    free: &[i32],
    heads: &[i32],
    chain: &[i32],
    rows: &[u32],
    store: &mut [u8],
    counts: &[u16],
) -> Result<Ended<u64>, Refusal>
    ensures value { answer_of result
        ≡ written_of
        (checkpoint
        (with_counts counts.now
        (memory control states.old names.now pool.now free.now heads.now
        chain.now rows.now store.old))) }
    ensures number { written_number (answer_of result)
        ≡ (checkpoint
        (with_counts counts.now
        (memory control states.old names.now pool.now free.now heads.now
        chain.now rows.now store.old))).refusal }
    ensures words { written_words (answer_of result)
        ≡ (checkpoint
        (with_counts counts.now
        (memory control states.old names.now pool.now free.now heads.now
        chain.now rows.now store.old))).answer }
    ensures store_after { with_counts counts.now
        (memory (ended_control control result) states.new names.now pool.now free.now
        heads.now chain.now rows.now store.new)
        ≡ (checkpoint
        (with_counts counts.now
        (memory control states.old names.now pool.now free.now heads.now
        chain.now rows.now store.old))).after }
{
    let lent = PoolView {
        control,
        states,
        names,
        pool,
        free,
        heads,
        chain,
        rows,
        store,
        counts,
    };
    refusal(&lent)?;
    let answer = count_dirty(states);
    let control = write_all(control, states, names, pool, rows, store);
    Ok(Ended { control, answer })
}
