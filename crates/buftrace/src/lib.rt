// What a list of used pages costs: hits, loads and probes of pinning and unpinning each, without page bytes.

#![tactic(auto)]

pub mod report;
pub mod scan;
pub mod trace;
pub mod usage;
