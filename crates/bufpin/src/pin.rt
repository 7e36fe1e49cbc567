// Pin: of a page that is held its holder has one pin more; another is verified and loaded into a free buffer, or into the victim of a
// sweep.

ghost use Rattle.std.specs.Prelude.{◌≡◌, true, Ok};
ghost use Rattle.laws.specs.First.{found};
ghost use Rattle.buftag.specs.Link.{link_of};
ghost use Rattle.bufmodel.specs.Rows.{place_of};
ghost use Rattle.bufmodel.specs.View.{memory_in, SameLoans};
ghost use Rattle.bufmodel.specs.Sizes.{sized};
ghost use Rattle.bufmodel.specs.Books.{sound};
ghost use Rattle.bufmodel.specs.Answer.{answer_of, ended_control, pinned_number, pinned_words, pinned_of};
ghost use Rattle.bufmodel.specs.Pin.{pin_new, pin};
ghost use Rattle.bufmem.specs.Seek.{sought};

use crate::held::pin_held;
use crate::victim::{loaded, pin_swept};
use crate::wanted::Wanted;
use bufbooks::lent::refusal;
use bufmem::counts::{is_holder, put_count};
use bufmem::seal::passes_block;
use bufmem::seek::seek;
use bufmodel::answer::{Ended, Pinned};
use bufmodel::control::Control;
use bufmodel::holder::Holder;
use bufmodel::refusal::Refusal;
use bufmodel::view::SlicesMut;
use bufmoves::exchange::load_page;
use buftag::link::Link;
use buftag::lookup::look_up;
use buftag::name::PageName;
use buftag::number::BufferNumber;

// A page that is not held comes into the top of the free list, or into a victim.
fn pin_new(
    control: Control,
    lent: &mut SlicesMut<'_>,
    wanted: Wanted,
) -> Result<Ended<Pinned>, Refusal>
    requires { (sized (memory_in control lent.old) ≡ true) × (sound (memory_in control lent.old) ≡ true)
        × (place_of lent.old.rows.now wanted.name ≡ found wanted.place) }
    ensures value { answer_of result
        ≡ pinned_of (pin_new (memory_in control lent.old) wanted.holder.0 wanted.name (link_of control.top)) }
    ensures store_after { memory_in (ended_control control result) lent.new
        ≡ (pin_new (memory_in control lent.old) wanted.holder.0 wanted.name (link_of control.top)).after }
    ensures same_loans { SameLoans lent.new lent.old }
{
    let Link::To(i) = Link::from(control.top) else {
        return pin_swept(control, lent, wanted);
    };
    let buffer = BufferNumber(i);
    let states = &mut *lent.states;
    let names = &mut *lent.names;
    let pool = &mut *lent.pool;
    let free = &mut *lent.free;
    let heads = &mut *lent.heads;
    let chain = &mut *lent.chain;
    let store = &mut *lent.store;
    let after = load_page(
        control,
        states,
        names,
        pool,
        free,
        heads,
        chain,
        store,
        wanted.name,
        buffer,
        wanted.place,
    );
    put_count(lent.counts, wanted.holder, buffer, 1);
    Ok(Ended {
        control: after,
        answer: loaded(buffer, false, 0),
    })
}

// Where no buffer has the page, its block is verified first.
fn pin_at(
    control: Control,
    lent: &mut SlicesMut<'_>,
    wanted: Wanted,
) -> Result<Ended<Pinned>, Refusal>
    requires { (sized (memory_in control lent.old) ≡ true) × (sound (memory_in control lent.old) ≡ true)
        × (sought lent.old.rows.now wanted.name ≡ Ok wanted.place) }
    ensures value { answer_of result ≡ pinned_of (pin (memory_in control lent.old) wanted.holder.0 wanted.name) }
    ensures store_after { memory_in (ended_control control result) lent.new
        ≡ (pin (memory_in control lent.old) wanted.holder.0 wanted.name).after }
    ensures same_loans { SameLoans lent.new lent.old }
{
    let seen = lent.view(control);
    let Some(buffer) = look_up(seen.heads, seen.chain, seen.names, wanted.name) else {
        if !passes_block(
            seen.store,
            wanted.place,
            seen.control.size,
            wanted.name.block,
        ) {
            return Err(Refusal::Checksum);
        }
        return pin_new(control, lent, wanted);
    };
    let states = &mut *lent.states;
    let counts = &mut *lent.counts;
    let answer = pin_held(control, states, counts, wanted.holder, buffer)?;
    Ok(Ended { control, answer })
}

pub fn pin_page(
    control: Control,
    lent: &mut SlicesMut<'_>,
    holder: Holder,
    name: PageName,
) -> Result<Ended<Pinned>, Refusal>
    ensures value { answer_of result ≡ pinned_of (pin (memory_in control lent.old) holder.0 name) }
    ensures number { pinned_number (answer_of result)
        ≡ (pin (memory_in control lent.old) holder.0 name).refusal }
    ensures words { pinned_words (answer_of result)
        ≡ (pin (memory_in control lent.old) holder.0 name).answer }
    ensures store_after { memory_in (ended_control control result) lent.new
        ≡ (pin (memory_in control lent.old) holder.0 name).after }
    ensures same_loans { SameLoans lent.new lent.old }
{
    refusal(&lent.view(control))?;
    if !is_holder(holder) {
        return Err(Refusal::NoHolder);
    }
    let place = seek(lent.rows, name)?;
    pin_at(
        control,
        lent,
        Wanted {
            holder,
            name,
            place,
        },
    )
}
