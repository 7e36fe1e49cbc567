// The log's positions. The slices stand one by one: beside the record that is lent, a view, which has one of its own, would say it twice.

ghost use Rattle.std.specs.Prelude.{◌≡◌};
ghost use Rattle.bufmodel.specs.Memory.{memory, with_counts};
ghost use Rattle.bufmodel.specs.View.{memory_of};
ghost use Rattle.bufmodel.specs.Answer.{accepted_number, accepted_words, accepted_of};
ghost use Rattle.bufmodel.specs.Calls.{log_inserted, log_flushed};

use crate::store::store_back;
use bufcalls::log::{log_flushed, log_inserted};
use bufmodel::control::Control;
use bufmodel::refusal::Refusal;
use bufmodel::view::PoolView;

// The log is inserted up to a position.
pub fn log_inserted_to(
    control: &mut Control,
    states: &[u32],
    names: &[u32],
    pool: &[u8],
    free: &[i32],
    heads: &[i32],
    chain: &[i32],
    rows: &[u32],
    store: &[u8],
    counts: &[u16],
    position: u64,
) -> Result<(), Refusal>
    ensures value { result
        ≡ accepted_of
        (log_inserted
        (with_counts counts.now
        (memory control.old states.now names.now pool.now free.now
        heads.now chain.now rows.now store.now)) position) }
    ensures number { accepted_number result
        ≡ (log_inserted
        (with_counts counts.now
        (memory control.old states.now names.now pool.now free.now
        heads.now chain.now rows.now store.now)) position).refusal }
    ensures words { accepted_words result
        ≡ (log_inserted
        (with_counts counts.now
        (memory control.old states.now names.now pool.now free.now
        heads.now chain.now rows.now store.now)) position).answer }
    ensures store_after { with_counts counts.now
        (memory control.new states.now names.now pool.now free.now
        heads.now chain.now rows.now store.now)
        ≡ (log_inserted
        (with_counts counts.now
        (memory control.old states.now names.now pool.now free.now
        heads.now chain.now rows.now store.now)) position).after }
{
    let seen = PoolView {
        control: *control,
        states,
        names,
        pool,
        free,
        heads,
        chain,
        rows,
        store,
        counts,
    };
    let after = log_inserted(&seen, position)?;
    store_back(control, after);
    Ok(())
}

// The log is flushed up to a position, or further.
pub fn log_flushed_to(
    control: &mut Control,
    states: &[u32],
    names: &[u32],
    pool: &[u8],
    free: &[i32],
    heads: &[i32],
    chain: &[i32],
    rows: &[u32],
    store: &[u8],
    counts: &[u16],
    position: u64,
) -> Result<(), Refusal>
    ensures value { result
        ≡ accepted_of
        (log_flushed
        (with_counts counts.now
        (memory control.old states.now names.now pool.now free.now
        heads.now chain.now rows.now store.now)) position) }
    ensures number { accepted_number result
        ≡ (log_flushed
        (with_counts counts.now
        (memory control.old states.now names.now pool.now free.now
        heads.now chain.now rows.now store.now)) position).refusal }
    ensures words { accepted_words result
        ≡ (log_flushed
        (with_counts counts.now
        (memory control.old states.now names.now pool.now free.now
        heads.now chain.now rows.now store.now)) position).answer }
    ensures store_after { with_counts counts.now
        (memory control.new states.now names.now pool.now free.now
        heads.now chain.now rows.now store.now)
        ≡ (log_flushed
        (with_counts counts.now
        (memory control.old states.now names.now pool.now free.now
        heads.now chain.now rows.now store.now)) position).after }
{
    let seen = PoolView {
        control: *control,
        states,
        names,
        pool,
        free,
        heads,
        chain,
        rows,
        store,
        counts,
    };
    let after = log_flushed(&seen, position)?;
    store_back(control, after);
    Ok(())
}

// What both calls leave: the control record, and each answer.
#[derive(Clone, Copy)]
pub struct LogEnd {
    pub control: Control,
    pub inserted: Result<(), Refusal>,
    pub flushed: Result<(), Refusal>,
}

// The log is inserted and then flushed up to a position: one control record is lent to both calls. Whoever has the record by value
// calls this.
pub fn log_through(seen: &PoolView<'_>, position: u64) -> LogEnd
    ensures inserted_value { result.inserted ≡ accepted_of (log_inserted (memory_of seen.now) position) }
    ensures inserted_value_2 { accepted_number result.inserted ≡ (log_inserted (memory_of seen.now) position).refusal }
    ensures inserted_value_3 { accepted_words result.inserted ≡ (log_inserted (memory_of seen.now) position).answer }
    ensures flushed_value { result.flushed
        ≡ accepted_of (log_flushed (log_inserted (memory_of seen.now) position).after position) }
    ensures flushed_value_2 { accepted_number result.flushed
        ≡ (log_flushed (log_inserted (memory_of seen.now) position).after position).refusal }
    ensures flushed_value_3 { accepted_words result.flushed
        ≡ (log_flushed (log_inserted (memory_of seen.now) position).after position).answer }
    ensures store_value { memory_of (record seen.now { control = result.control })
        ≡ (log_flushed (log_inserted (memory_of seen.now) position).after position).after }
{
    let mut lent = seen.control;
    let inserted = log_inserted_to(
        &mut lent,
        seen.states,
        seen.names,
        seen.pool,
        seen.free,
        seen.heads,
        seen.chain,
        seen.rows,
        seen.store,
        seen.counts,
        position,
    );
    let flushed = log_flushed_to(
        &mut lent,
        seen.states,
        seen.names,
        seen.pool,
        seen.free,
        seen.heads,
        seen.chain,
        seen.rows,
        seen.store,
        seen.counts,
        position,
    );
    LogEnd {
        control: lent,
        inserted,
        flushed,
    }
}
