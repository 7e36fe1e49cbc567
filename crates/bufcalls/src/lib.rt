// The calls by value but for pin. Each checks first, in the table's order, and changes nothing where it refuses.
// A call that changes slices has all ten one by one: C lends it those that it leaves as const, so that one struct of loans for all would
// ask for more, and one for each of the sets (those that write back, unpin and give back, and so on) would be pin's once more.

#![tactic(auto)]

pub mod buffer;
pub mod checkpoint;
pub mod file;
pub mod flush;
pub mod give;
pub mod log;
pub mod peek;
pub mod set_up;
