// State words: their fields, the cap on a usage count, whether a word is sound, and the changes of the word of a buffer in use.

ghost use Rattle.std.specs.Prelude.{◌≡◌, true, false, not, ◌&&◌, ◌^◌, ◌<◌};
ghost use Rattle.bufmodel.specs.Counts.{max_holders};
ghost use Rattle.bufmodel.specs.Word.{
  pins,
  usage,
  flags,
  pack,
  dirty,
  empty,
  pinned,
  sound_cap,
  sound_word,
  pin_more,
  pin_less,
  use_less,
  make_dirty,
  make_clean,
  loaded,
};

// The greatest cap.
const MAX_CAP: usize = 15;

// One pin, and one use, as parts of a word.
const PIN: u32 = 1;

const USE: u32 = 1 << 18;

// The flags of a page in a buffer: clean, and dirty.
const CLEAN: u32 = 524;

const DIRTY: u32 = 590;

// The lowest flag, and the dirty one, as parts of a word.
const FLAG: u32 = 1 << 22;

const DIRTY_FLAG: u32 = 1 << 23;

#[tactic(auto, unfolding(bufmodel::specs::Word::pins))]
pub fn pins_of(w: u32) -> u32
    ensures { result ≡ pins w }
{
    w % USE
}

#[tactic(auto, unfolding(bufmodel::specs::Word::usage))]
pub fn usage_of(w: u32) -> u32
    ensures { result ≡ usage w }
{
    w / USE % 16
}

#[tactic(auto, unfolding(bufmodel::specs::Word::flags))]
pub fn flags_of(w: u32) -> u32
    ensures { result ≡ flags w }
{
    w / FLAG
}

// The word of its fields.
#[tactic(auto, unfolding(bufmodel::specs::Word::pack))]
pub fn pack_word(pins: u32, usage: u32, flags: u32) -> u32
    requires { (pins < 2 ^ 18) × (usage < 2 ^ 4) × (flags < 2 ^ 10) }
    ensures { result ≡ pack pins usage flags }
{
    pins + usage * USE + flags * FLAG
}

#[tactic(auto, unfolding(bufmodel::specs::Word::dirty, bufmodel::specs::Word::bit))]
pub fn is_dirty(w: u32) -> bool
    ensures { result ≡ dirty w }
{
    w / DIRTY_FLAG % 2 == 1
}

#[tactic(auto, unfolding(bufmodel::specs::Word::pinned))]
pub fn is_pinned(w: u32) -> bool
    ensures { result ≡ pinned w }
{
    pins_of(w) != 0
}

#[tactic(auto, unfolding(bufmodel::specs::Word::empty))]
pub fn is_empty(w: u32) -> bool
    ensures { result ≡ empty w }
{
    w == 0
}

// Whether the greatest usage count may be so. A usage count is compared with a cap that passed this test: 32 bits hold it.
#[tactic(auto, unfolding(bufmodel::specs::Word::sound_cap))]
pub fn cap_ok(cap: usize) -> bool
    ensures { result ≡ sound_cap cap }
{
    (1 <= cap) & (cap <= MAX_CAP)
}

// Whether a word is sound and that of a buffer in use. Without a branch, so that a loop over words becomes one over vectors.
pub fn is_full(cap: u32, w: u32) -> bool
    ensures { result ≡ (sound_word cap w && not (empty w)) }
{
    let flags = flags_of(w);
    ((flags == CLEAN) | (flags == DIRTY)) & (usage_of(w) <= cap)
}

// One pin more, of a holder that had none, and one use more where they are below the cap.
pub fn pin_more(cap: u32, w: u32) -> u32
    requires { (sound_word cap w ≡ true) × (empty w ≡ false) × (pins w < max_holders) }
    ensures { result ≡ pin_more cap w }
{
    if usage_of(w) < cap {
        w + PIN + USE
    } else {
        w + PIN
    }
}

// Lines with names of their own, here and below: with the part of the word as a parameter they would be no plainer.
pub fn pin_less(w: u32) -> u32
    requires { pinned w ≡ true }
    ensures { result ≡ pin_less w }
{
    w - PIN
}

pub fn use_less(w: u32) -> u32
    requires { 0 < usage w }
    ensures { result ≡ use_less w }
{
    w - USE
}

pub fn make_dirty(w: u32) -> u32
    ensures { result ≡ make_dirty w }
{
    w % FLAG + DIRTY * FLAG
}

pub fn make_clean(w: u32) -> u32
    ensures { result ≡ make_clean w }
{
    w % FLAG + CLEAN * FLAG
}

// The word of a page just loaded.
#[tactic(auto, unfolding(bufmodel::specs::Word::loaded, bufmodel::specs::Word::pack))]
pub fn loaded_word() -> u32
    ensures { result ≡ loaded }
{
    CLEAN * FLAG + USE + PIN
}
