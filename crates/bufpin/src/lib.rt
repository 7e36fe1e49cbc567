// Pin, the control record by value. It checks first, in the table's order, and changes nothing where it refuses.
// That the memory is sized and sound is a clause of the parts that load a page: a ghost field of a struct with loans in it has to hold at
// each write through them, and in the midst of a move the memory is not sound.

#![tactic(auto)]

pub mod held;
pub mod pin;
pub mod victim;
pub mod wanted;
