// Pin.

ghost use Rattle.std.specs.Prelude.{◌≡◌};
ghost use Rattle.bufmodel.specs.View.{memory_in, SameLoans};
ghost use Rattle.bufmodel.specs.Answer.{pinned_number, pinned_words, pinned_of};
ghost use Rattle.bufmodel.specs.Pin.{pin};

use crate::store::store_back;
use bufmodel::answer::Pinned;
use bufmodel::control::Control;
use bufmodel::holder::Holder;
use bufmodel::refusal::Refusal;
use bufmodel::view::SlicesMut;
use bufpin::pin::pin_page;
use buftag::name::PageName;

// Of a page that is held its holder has one pin more; another is loaded into a free buffer, or into the victim of a sweep.
pub fn pin(
    control: &mut Control,
    lent: &mut SlicesMut<'_>,
    holder: Holder,
    name: PageName,
) -> Result<Pinned, Refusal>
    ensures value { result ≡ pinned_of (pin (memory_in control.old lent.old) holder.0 name) }
    ensures number { pinned_number result ≡ (pin (memory_in control.old lent.old) holder.0 name).refusal }
    ensures words { pinned_words result ≡ (pin (memory_in control.old lent.old) holder.0 name).answer }
    ensures store_after { memory_in control.new lent.new ≡ (pin (memory_in control.old lent.old) holder.0 name).after }
    ensures same_loans { SameLoans lent.new lent.old }
{
    let end = pin_page(*control, lent, holder, name)?;
    store_back(control, end.control);
    Ok(end.answer)
}
