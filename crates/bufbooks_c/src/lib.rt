// The check of lent memory for programs in C, as `bufbooks` has it: slices one by one, and a result that is a number.

#![tactic(auto)]

pub mod export;
