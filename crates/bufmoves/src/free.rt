// The free list: a buffer put on its top, and the buffer at its top taken off.

ghost use Rattle.std.specs.Prelude.{◌≡◌, ◌^◌, ◌<◌, pos, length, set};
ghost use Rattle.buftag.specs.Link.{number_at};
ghost use Rattle.bufmodel.specs.Moves.{off};
ghost use Rattle.bufmoves.specs.Free.{topped};

use bufmodel::control::Control;
use buftag::link::OFF;
use buftag::number::BufferNumber;

pub fn push_free(control: Control, free: &mut [i32], buffer: BufferNumber) -> Control
    requires { (buffer.0 < length free.old) × (buffer.0 < 2 ^ 31) }
    ensures value { result ≡ topped control (pos buffer.0) }
    ensures free_after { free.new ≡ set free.old buffer.0 control.top }
{
    let i = buffer.0;
    free[i] = control.top;
    Control {
        top: i as i32,
        ..control
    }
}

pub fn pop_free(control: Control, free: &mut [i32], buffer: BufferNumber) -> Control
    requires { buffer.0 < length free.old }
    ensures value { result ≡ topped control (number_at free.old buffer.0) }
    ensures free_after { free.new ≡ set free.old buffer.0 off }
{
    let i = buffer.0;
    let next = free[i];
    free[i] = OFF;
    Control {
        top: next,
        ..control
    }
}
