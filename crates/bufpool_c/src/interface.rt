// The number of the interface for C, which the symbol's name carries too: a program built for another one does not link.

ghost use Rattle.std.specs.Prelude.{◌≡◌};
ghost use Rattle.bufpool.specs.Interface.{interface};

// The number that include/bufpool_calls.h has.
#[unsafe(no_mangle)]
pub extern "C" fn bufpool_interface_4() -> u32
    ensures { result ≡ interface }
{
    bufpool::interface::bufpool_interface_4()
}
