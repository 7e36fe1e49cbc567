// A pin of a page that is held.

ghost use Rattle.std.specs.Prelude.{◌≡◌, true, false, ◌≤◌, ◌<◌, length, get_or, set};
ghost use Rattle.bufmodel.specs.Word.{max_cap, pins, empty, sound_word};
ghost use Rattle.bufmodel.specs.Counts.{max_holders, count_place, count_at};
ghost use Rattle.bufmodel.specs.Pin.{held_word};
ghost use Rattle.bufpin.specs.Pin.{held_at, held_words, held_counts};

use bufmem::counts::{MAX_COUNT, count_of, put_count};
use bufmem::state::{put_state, state_of};
use bufmem::word::pin_more;
use bufmodel::answer::Pinned;
use bufmodel::control::Control;
use bufmodel::holder::Holder;
use bufmodel::refusal::Refusal;
use buftag::number::BufferNumber;

// A holder's first pin on a page counts in its word: one pin more, and one use more where they are below the cap.
fn count_first(cap: u32, states: &mut [u32], buffer: BufferNumber, count: u16)
    requires { (buffer.0 < length states.old) × (sound_word cap (get_or states.old buffer.0 0) ≡ true)
        × (empty (get_or states.old buffer.0 0) ≡ false)
        × (count ≡ 0 → pins (get_or states.old buffer.0 0) < max_holders) }
    ensures { states.new
        ≡ set states.old buffer.0 (held_word cap count (get_or states.old buffer.0 0)) }
{
    if count == 0 {
        let w = state_of(states, buffer);
        put_state(states, buffer, pin_more(cap, w));
    }
}

// Of a page that is held its holder has one pin more, unless it has the most.
pub fn pin_held(
    control: Control,
    states: &mut [u32],
    counts: &mut [u16],
    holder: Holder,
    buffer: BufferNumber,
) -> Result<Pinned, Refusal>
    requires { (buffer.0 < length states.old) × (sound_word control.cap (get_or states.old buffer.0 0) ≡ true)
        × (empty (get_or states.old buffer.0 0) ≡ false)
        × (control.cap ≤ max_cap)
        × (count_place buffer.0 holder.0 < length counts.old)
        × (count_at counts.old buffer.0 holder.0 ≡ 0 → pins (get_or states.old buffer.0 0) < max_holders) }
    ensures value { result ≡ held_at buffer.0 (count_at counts.old buffer.0 holder.0) }
    ensures states_after { states.new
        ≡ held_words control.cap states.old buffer.0 (count_at counts.old buffer.0 holder.0) }
    ensures counts_after { counts.new ≡ held_counts counts.old buffer.0 holder.0 }
{
    let count = count_of(counts, holder, buffer);
    if count == MAX_COUNT {
        return Err(Refusal::PinCount);
    }
    count_first(control.cap as u32, states, buffer, count);
    put_count(counts, holder, buffer, count + 1);
    Ok(Pinned {
        buffer,
        hit: true,
        wrote: false,
        probes: 0,
    })
}
