// The bytes of a word, and FNV-1a over them, with the program's own wrapping multiplication.

#![tactic(auto)]

pub mod bytes;
pub mod fnv;
