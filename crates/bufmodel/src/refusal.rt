// Why a call is refused, and the number that C has for it.

ghost use Rattle.std.specs.Prelude.{◌≡◌};
ghost use Rattle.bufmodel.specs.Refusal.{refusal_number};

// In the order of their numbers. Checked are they in another: a cap behind 1, a holder behind 2, a page's checksum behind 4.
#[derive(Clone, Copy, Debug, PartialEq, Eq)]
pub enum Refusal {
    // Sizes or rows break a rule.
    Sizes = 1,
    // The books are not sound.
    Books = 2,
    // No row has the file's four numbers.
    NoFile = 3,
    // The file has no such block.
    NoBlock = 4,
    // The holder's count of the page is the greatest.
    PinCount = 5,
    // Every buffer is pinned.
    AllPinned = 6,
    // There is no such buffer.
    NoBuffer = 7,
    // The holder has no pin on the buffer.
    NotPinned = 8,
    // The bytes are not within the page, or a write's begin in its log position.
    Range = 9,
    // A write has no bytes.
    NoBytes = 10,
    // A write's log position is above inserted.
    NotInserted = 11,
    // A write's log position is below the page's own.
    Earlier = 12,
    // The file has as many blocks as its capacity.
    FileFull = 13,
    // One of the file's pages is pinned.
    FilePinned = 14,
    // The log is to be inserted up to a position below inserted.
    LogShorter = 15,
    // The log is to be flushed up to a position above inserted.
    FlushedBeyond = 16,
    // The block's checksum differs.
    Checksum = 17,
    // The cap is not from 1 to 15.
    Cap = 18,
    // There is no such holder.
    NoHolder = 19,
}

impl From<Refusal> for u32 {
    ghost from_gives = { λ refusal number. number ≡ refusal_number refusal };

    fn from(refusal: Refusal) -> u32 {
        refusal as u32
    }
}
