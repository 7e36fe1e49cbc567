// The control record as it is lent: six words, read and stored.

ghost use Rattle.std.specs.Prelude.{◌≡◌, length};
ghost use Rattle.bufmodel.specs.Lent.{control_words, top_word, words_of};
ghost use Rattle.bufmem.specs.Control.{top_read, control_read};

use bufmodel::control::Control;
use buftag::link::NONE;

pub const CONTROL_WORDS: usize = 6;

// Of a call's answer.
pub const ANSWER_WORDS: usize = 4;

// -1 as a control word: 64 one bits.
const ONE_BITS: u64 = u64::MAX;

// A number that is no link: the record has links as C has them, not an Option.
const NO_LINK: i32 = -3;

// The top of the free list. A word that is no link is made a number that is none.
#[tactic(auto, unfolding(crate::specs::Control::top_read))]
fn read_top(w: u64) -> i32
    ensures { result ≡ top_read w }
{
    if w == ONE_BITS {
        return NONE;
    }
    i32::try_from(w).unwrap_or(NO_LINK)
}

// The control record of its six words.
#[tactic(auto, unfolding(crate::specs::Control::control_read))]
pub fn read_control(words: &[u64]) -> Control
    requires { length words.now ≡ control_words }
    ensures { result ≡ control_read words.now }
{
    Control {
        size: words[0] as usize,
        hand: words[1] as usize,
        top: read_top(words[2]),
        inserted: words[3],
        flushed: words[4],
        cap: words[5] as usize,
    }
}

#[tactic(auto, unfolding(bufmodel::specs::Lent::top_word))]
fn top_word(top: i32) -> u64
    ensures { result ≡ top_word top }
{
    u64::try_from(top).unwrap_or(ONE_BITS)
}

// Stores the control record in its words.
#[tactic(auto, unfolding(bufmodel::specs::Lent::words_of))]
pub fn write_control(words: &mut [u64], control: Control)
    requires { length words.old ≡ control_words }
    ensures { words.new ≡ words_of control }
{
    words.copy_from_slice(&[
        control.size as u64,
        control.hand as u64,
        top_word(control.top),
        control.inserted,
        control.flushed,
        control.cap as u64,
    ]);
}
