// What moves pages between buffers and the store: the clock sweep, write-back, release and load, the free list.
// Each takes the slices that it needs one by one: who calls it may have others to look at only.

#![tactic(auto)]

pub mod back;
pub mod exchange;
pub mod free;
pub mod sweep;
