// What the calls answer where they are accepted. Every one of them may be refused.

use crate::control::Control;
use buftag::number::BufferNumber;

// Of pin: document 01's four values, each of which has a meaning in every case.
#[derive(Clone, Copy)]
pub struct Pinned {
    pub buffer: BufferNumber,
    pub hit: bool,
    pub wrote: bool,
    pub probes: u64,
}

// Of peek: where the page lies, as a byte offset in the pool or in the store.
#[derive(Clone, Copy)]
pub enum Peeked {
    InPool(u64),
    InStore(u64),
}

// Of the calls that change the control record and answer something beside: the record afterwards, and the answer.
#[derive(Clone, Copy)]
pub struct Ended<T> {
    pub control: Control,
    pub answer: T,
}
