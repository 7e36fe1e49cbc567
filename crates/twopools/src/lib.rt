// Pools of two sizes that get one list of calls: definitions and theorems alone.

#![tactic(auto)]
