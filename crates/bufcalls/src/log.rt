// The log's positions.

ghost use Rattle.std.specs.Prelude.{◌≡◌};
ghost use Rattle.bufmodel.specs.Memory.{with_control};
ghost use Rattle.bufmodel.specs.View.{memory_of};
ghost use Rattle.bufmodel.specs.Answer.{accepted_number, accepted_words, accepted_of, done_of, record_of};
ghost use Rattle.bufmodel.specs.Calls.{log_inserted, log_flushed};

use bufbooks::lent::refusal;
use bufmodel::control::Control;
use bufmodel::refusal::Refusal;
use bufmodel::view::PoolView;
use bufmoves::back::flushed_to;

// The log is inserted up to a position.
pub fn log_inserted(lent: &PoolView<'_>, position: u64) -> Result<Control, Refusal>
    ensures value { done_of result ≡ accepted_of (log_inserted (memory_of lent.now) position) }
    ensures number { accepted_number (done_of result) ≡ (log_inserted (memory_of lent.now) position).refusal }
    ensures words { accepted_words (done_of result) ≡ (log_inserted (memory_of lent.now) position).answer }
    ensures after { with_control (record_of lent.now.control result) (memory_of lent.now)
        ≡ (log_inserted (memory_of lent.now) position).after }
{
    refusal(lent)?;
    if position < lent.control.inserted {
        return Err(Refusal::LogShorter);
    }
    let mut after = lent.control;
    after.inserted = position;
    Ok(after)
}

// The log is flushed up to a position, or further.
pub fn log_flushed(lent: &PoolView<'_>, position: u64) -> Result<Control, Refusal>
    ensures value { done_of result ≡ accepted_of (log_flushed (memory_of lent.now) position) }
    ensures number { accepted_number (done_of result) ≡ (log_flushed (memory_of lent.now) position).refusal }
    ensures words { accepted_words (done_of result) ≡ (log_flushed (memory_of lent.now) position).answer }
    ensures after { with_control (record_of lent.now.control result) (memory_of lent.now)
        ≡ (log_flushed (memory_of lent.now) position).after }
{
    refusal(lent)?;
    if position > lent.control.inserted {
        return Err(Refusal::FlushedBeyond);
    }
    Ok(flushed_to(lent.control, position))
}
