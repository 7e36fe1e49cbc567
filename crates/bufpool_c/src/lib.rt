// The pool for programs in C, as `bufpool` has it: the thirteen calls, a page's checksum, and the interface's number.
// Slices one by one, and results as numbers: so C has them.

#![tactic(auto)]

pub mod back;
pub mod buffer;
pub mod checksum;
pub mod file;
pub mod give;
pub mod interface;
pub mod log;
pub mod page;
pub mod set_up;
