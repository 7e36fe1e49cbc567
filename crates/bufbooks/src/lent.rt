// The memory as it is lent: whether a call may go on.

ghost use Rattle.std.specs.Prelude.{◌≡◌, []};
ghost use Rattle.bufmodel.specs.View.{memory_of};
ghost use Rattle.bufmodel.specs.Outcome.{checked};
ghost use Rattle.bufmodel.specs.Answer.{accepted_number};

use crate::books::books_ok;
use crate::counts::counts_ok;
use crate::sizes::sizes_ok;
use bufmodel::refusal::Refusal;
use bufmodel::view::PoolView;

// The places 1 and 2 of every call but set up.
#[tactic(auto, using(crate::proofs::LentLaws::checked_sizes))]
pub fn refusal(lent: &PoolView<'_>) -> Result<(), Refusal>
    ensures { accepted_number result ≡ checked (memory_of lent.now) [] }
{
    if !sizes_ok(lent) {
        return Err(Refusal::Sizes);
    }
    let books = books_ok(
        lent.control,
        lent.states,
        lent.names,
        lent.pool,
        lent.free,
        lent.heads,
        lent.chain,
        lent.rows,
    );
    if !(books && counts_ok(lent.states, lent.counts)) {
        return Err(Refusal::Books);
    }
    Ok(())
}
