// State words, taken apart and packed, and private counts.

ghost use Rattle.std.specs.Prelude.{◌≡◌, ◌<◌};

use crate::bench::Bench;
use bufmem::counts::count_of;
use bufmem::word::{flags_of, pack_word, pins_of, usage_of};
use bufmodel::holder::Holder;
use buftag::number::BufferNumber;

// A word packed of its fields.
fn packed(w: u32) -> u32
    ensures { result ≡ w }
{
    pack_word(pins_of(w), usage_of(w), flags_of(w))
}

impl Bench {
    // The word of a buffer, its fields, and the word that they make.
    pub(crate) fn print_word(&self, rt: &impl Print, buffer: usize)
        requires { buffer < 3 }
    {
        let w = self.states[buffer];
        let pins = pins_of(w);
        let usage = usage_of(w);
        let flags = flags_of(w);
        let _ = print!(rt;
            "buffer {buffer}: word 0x{w:08x}, pins {pins}, usage {usage}, flags {flags}"
        );
        let _ = println!(rt; ", packed 0x{:08x}", packed(w));
    }

    // How many pins the first six holders have on a buffer, and the last.
    pub(crate) fn print_counts(&self, rt: &impl Print, buffer: usize)
        requires { buffer < 3 }
    {
        let _ = print!(rt; "buffer {buffer}: counts");
        for holder in 0..6 {
            let count = count_of(&self.counts, Holder(holder), BufferNumber(buffer));
            let _ = print!(rt; " {count}");
        }
        let last = count_of(&self.counts, Holder(63), BufferNumber(buffer));
        let _ = println!(rt; " .. {last}");
    }
}
