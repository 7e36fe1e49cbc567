// Whether lent memory may be used: its sizes first (1), then its books (2); and the control record read from its words.
// What needs a part of the memory takes that part: of nine slices to look at, books_ok takes seven and buffers_ok five.

#![tactic(auto)]

pub mod books;
pub mod buffers;
pub mod counts;
pub mod export;
pub mod guesses;
pub mod hashes;
pub mod lent;
pub mod lists;
pub mod sizes;
pub mod sound_rows;
pub mod tables;
pub mod words;
