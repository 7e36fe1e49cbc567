// What the page pool is, as definitions alone: lent memory, state words, log positions, file rows, sizes and books, the clock sweep,
// the moves of a page and the thirteen calls. The code's contracts cite them; the code's control record, view of a pool, holders, answers
// and refusals are declared here.

#![tactic(auto)]

pub mod answer;
pub mod control;
pub mod holder;
pub mod refusal;
pub mod view;
