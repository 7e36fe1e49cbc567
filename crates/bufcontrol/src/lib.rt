// Calls to which the control record is lent: each makes the call by value, and stores hand, top and log positions back.

#![tactic(auto)]

pub mod back;
pub mod log;
pub mod pin;
mod store;
