// The leaves over lent memory: control words, state words, private counts, log positions, file rows, blocks of bytes, pages, checksums.
// That an index or a part lies in its slice is a clause: it is about two values, and a type of both for each pair would be no plainer.

#![tactic(auto)]

pub mod block;
pub mod checksum;
pub mod control;
pub mod counts;
pub mod flag;
pub mod page;
pub mod place;
pub mod position;
pub mod rows;
pub mod seal;
pub mod seek;
pub mod state;
pub mod word;
