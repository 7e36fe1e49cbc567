// The part of a pin that sweeps: it takes a victim for the page, or finds all buffers pinned.

ghost use Rattle.std.specs.Prelude.{◌≡◌, true, false, ◌<◌, length, get_or};
ghost use Rattle.laws.specs.First.{found};
ghost use Rattle.buftag.specs.declared.link.Link.TheVariants.{End};
ghost use Rattle.buftag.specs.Link.{link_of};
ghost use Rattle.bufmodel.specs.Word.{pinned, dirty, empty};
ghost use Rattle.bufmodel.specs.Rows.{place_of};
ghost use Rattle.bufmodel.specs.Memory.{with_counts};
ghost use Rattle.bufmodel.specs.View.{memory_in, SameLoans};
ghost use Rattle.bufmodel.specs.Counts.{set_count};
ghost use Rattle.bufmodel.specs.Sizes.{sized};
ghost use Rattle.bufmodel.specs.Books.{sound};
ghost use Rattle.bufmodel.specs.Sweep.{sweep_all};
ghost use Rattle.bufmodel.specs.Moves.{write_back, release, load};
ghost use Rattle.bufmodel.specs.Answer.{answer_of, ended_control, pinned_of};
ghost use Rattle.bufmodel.specs.Pin.{pin_swept};
ghost use Rattle.bufpin.specs.Victim.{loaded_at};

use crate::wanted::Wanted;
use bufmem::counts::put_count;
use bufmem::state::state_of;
use bufmem::word::is_dirty;
use bufmodel::answer::{Ended, Pinned};
use bufmodel::control::Control;
use bufmodel::refusal::Refusal;
use bufmodel::view::SlicesMut;
use bufmoves::back::write_back;
use bufmoves::exchange::{load_page, release_buffer};
use bufmoves::sweep::{Victim, sweep};
use buftag::number::BufferNumber;

// What a pin that loads its page answers.
pub(crate) fn loaded(buffer: BufferNumber, wrote: bool, probes: u64) -> Pinned
    ensures { result ≡ loaded_at buffer.0 wrote probes }
{
    Pinned {
        buffer,
        hit: false,
        wrote,
        probes,
    }
}

// The victim of a sweep is written back if it is dirty, gives up its page, and the wanted page is loaded. The holder's count of it becomes
// 1.
fn pin_victim(
    control: Control,
    lent: &mut SlicesMut<'_>,
    wanted: Wanted,
    victim: BufferNumber,
    probes: u64,
) -> Ended<Pinned>
    requires { (sized (memory_in control lent.old) ≡ true) × (sound (memory_in control lent.old) ≡ true)
        × (victim.0 < length lent.old.states.now)
        × (empty (get_or lent.old.states.now victim.0 0) ≡ false)
        × (pinned (get_or lent.old.states.now victim.0 0) ≡ false)
        × (place_of lent.old.rows.now wanted.name ≡ found wanted.place) }
    ensures answer { result.answer ≡ loaded_at victim.0 (dirty (get_or lent.old.states.now victim.0 0)) probes }
    ensures store_after { memory_in result.control lent.new
        ≡ with_counts (set_count lent.old.counts.now victim.0 wanted.holder.0 1)
        (load (release (write_back (memory_in control lent.old) victim.0) victim.0) wanted.name) }
    ensures same_loans { SameLoans lent.new lent.old }
{
    let states = &mut *lent.states;
    let names = &mut *lent.names;
    let pool = &mut *lent.pool;
    let free = &mut *lent.free;
    let heads = &mut *lent.heads;
    let chain = &mut *lent.chain;
    let store = &mut *lent.store;
    let wrote = is_dirty(state_of(states, victim));
    let written = write_back(control, states, names, pool, lent.rows, store, victim);
    let freed = release_buffer(written, states, names, free, heads, chain, victim);
    let after = load_page(
        freed,
        states,
        names,
        pool,
        free,
        heads,
        chain,
        store,
        wanted.name,
        victim,
        wanted.place,
    );
    put_count(lent.counts, wanted.holder, victim, 1);
    Ended {
        control: after,
        answer: loaded(victim, wrote, probes),
    }
}

// No buffer is free: a sweep finds one, or all are pinned.
pub fn pin_swept(
    control: Control,
    lent: &mut SlicesMut<'_>,
    wanted: Wanted,
) -> Result<Ended<Pinned>, Refusal>
    requires { (sized (memory_in control lent.old) ≡ true) × (sound (memory_in control lent.old) ≡ true)
        × (place_of lent.old.rows.now wanted.name ≡ found wanted.place)
        × (link_of control.top ≡ End) }
    ensures value { answer_of result
        ≡ pinned_of
        (pin_swept (memory_in control lent.old) wanted.holder.0 wanted.name
        (sweep_all control.cap lent.old.states.now control.hand)) }
    ensures store_after { memory_in (ended_control control result) lent.new
        ≡ (pin_swept (memory_in control lent.old) wanted.holder.0 wanted.name
        (sweep_all control.cap lent.old.states.now control.hand)).after }
    ensures same_loans { SameLoans lent.new lent.old }
{
    let Victim {
        buffer,
        hand,
        probes,
    } = sweep(control.cap, lent.states, control.hand).ok_or(Refusal::AllPinned)?;
    let swept = Control { hand, ..control };
    Ok(pin_victim(swept, lent, wanted, buffer, probes))
}
