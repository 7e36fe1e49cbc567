// Extend and drop.

ghost use Rattle.std.specs.Prelude.{◌≡◌, []};
ghost use Rattle.buftag.specs.Name.{file_of};
ghost use Rattle.bufmodel.specs.Lent.{called};
ghost use Rattle.bufpool.specs.Lent.{lent, ends};
ghost use Rattle.bufmodel.specs.Calls.{extend, drop_file};

use crate::answer::{put_answer, refuse};
use crate::control::put_record;
use bufcalls::file::{drop_file, extend_file};
use bufmem::control::{ANSWER_WORDS, CONTROL_WORDS, read_control};
use bufmodel::refusal::Refusal;
use buftag::name::file_name;

// Gives a file its next block, of zeros: answers its number.
pub fn bufpool_extend(
    control: &[u64],
    states: &[u32],
    names: &[u32],
    pool: &[u8],
    free: &[i32],
    heads: &[i32],
    chain: &[i32],
    rows: &mut [u32],
    store: &mut [u8],
    counts: &[u16],
    tablespace: u32,
    database: u32,
    relation: u32,
    fork: u32,
    answer: &mut [u64],
) -> u32
    ensures { ends result answer.new []
        (lent control.now states.now names.now pool.now free.now
        heads.now chain.now rows.new store.new counts.now)
        ≡ called (λ m. extend m (file_of tablespace database relation fork))
        (lent control.now states.now names.now pool.now free.now
        heads.now chain.now rows.old store.old counts.now) []
        answer.old }
{
    if answer.len() != ANSWER_WORDS {
        return u32::from(Refusal::Sizes);
    }
    if control.len() != CONTROL_WORDS {
        return refuse(answer);
    }
    let file = file_name(tablespace, database, relation, fork);
    let given = extend_file(
        read_control(control),
        states,
        names,
        pool,
        free,
        heads,
        chain,
        rows,
        store,
        counts,
        file,
    );
    put_answer(answer, given)
}

// Empties a file's buffers and takes its blocks.
pub fn bufpool_drop(
    control: &mut [u64],
    states: &mut [u32],
    names: &mut [u32],
    pool: &[u8],
    free: &mut [i32],
    heads: &mut [i32],
    chain: &mut [i32],
    rows: &mut [u32],
    store: &[u8],
    counts: &[u16],
    tablespace: u32,
    database: u32,
    relation: u32,
    fork: u32,
    answer: &mut [u64],
) -> u32
    ensures { ends result answer.new []
        (lent control.new states.new names.new pool.now free.new
        heads.new chain.new rows.new store.now counts.now)
        ≡ called (λ m. drop_file m (file_of tablespace database relation fork))
        (lent control.old states.old names.old pool.now free.old
        heads.old chain.old rows.old store.now counts.now) []
        answer.old }
{
    if answer.len() != ANSWER_WORDS {
        return u32::from(Refusal::Sizes);
    }
    if control.len() != CONTROL_WORDS {
        return refuse(answer);
    }
    let file = file_name(tablespace, database, relation, fork);
    let given = drop_file(
        read_control(control),
        states,
        names,
        pool,
        free,
        heads,
        chain,
        rows,
        store,
        counts,
        file,
    );
    put_record(control, answer, given)
}
