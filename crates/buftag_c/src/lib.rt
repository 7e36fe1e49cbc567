// Names for programs in C, as `buftag` has them.

#![tactic(auto)]

pub mod export;
