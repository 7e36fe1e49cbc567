// The pool for programs in C: the thirteen calls over lent memory, a page's checksum, and the interface's number.
// Slices one by one, and results as numbers: so the C interface has them.

#![tactic(auto)]

pub mod answer;
pub mod back;
pub mod buffer;
pub mod checksum;
pub mod control;
pub mod file;
pub mod give;
pub mod interface;
pub mod log;
pub mod page;
pub mod set_up;
