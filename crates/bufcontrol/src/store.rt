// The control record that a call by value has handed back, stored where it was lent.

ghost use Rattle.std.specs.Prelude.{◌≡◌};
ghost use Rattle.bufcontrol.specs.Stored.{back};

use bufmodel::control::Control;

// Hand, free top and log positions: no call changes the block size or the cap.
pub(crate) fn store_back(control: &mut Control, after: Control)
    requires { (after.size ≡ control.old.size) × (after.cap ≡ control.old.cap) }
    ensures stored { control.new ≡ after }
    ensures fields { control.new ≡ back control.old after }
{
    control.hand = after.hand;
    control.top = after.top;
    control.inserted = after.inserted;
    control.flushed = after.flushed;
}
