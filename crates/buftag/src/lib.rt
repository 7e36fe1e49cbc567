// Page names, their bytes and hash, the bucket chains that find the buffer of a name, and the check of all chains.
// Knows nothing of the pool: a buffer is a number with a state word (0 where it is empty), a name and a chain link.
// That an index lies in its slice, or that two slices fit each other, is a clause: it is about two values, and a type of both for each pair
// would be no plainer.

#![tactic(auto)]

pub mod bucket;
pub mod budget;
pub mod chain;
pub mod check;
pub mod export;
pub mod lead;
pub mod link;
pub mod lookup;
pub mod name;
pub mod names;
pub mod number;
