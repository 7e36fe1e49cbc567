// The control record by value.

#[derive(Clone, Copy, Default)]
pub struct Control {
    // P, the block size in bytes.
    pub size: usize,
    // The next buffer that the sweep looks at.
    pub hand: usize,
    // The top of the free list, -1 where it is empty.
    pub top: i32,
    // The log's inserted and flushed positions.
    pub inserted: u64,
    pub flushed: u64,
    // The cap, the greatest usage count.
    pub cap: usize,
}
