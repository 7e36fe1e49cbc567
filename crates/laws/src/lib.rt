// Definitions and laws alone, for the crates above: tests of every index, sums and counts, the first index, blocks of a list,
// and a test with the statement that it decides.

#![tactic(auto)]
