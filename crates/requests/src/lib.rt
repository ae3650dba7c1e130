// The change requests of document 02 as theorems about the definitions of crate `model`, beside what `demands` and `algebra` say with them. Each is what a function without parameters ensures.
#![tactic(auto)]

pub mod days;
pub mod gap;
pub mod live;
pub mod notation;
pub mod quorums;
pub mod testing;
