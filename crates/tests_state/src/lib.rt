//! The tests of recoveries, through the public calls of `nn_state`, over a host in memory. It has no items but tests.
#![tactic(auto)]

#[cfg(test)]
mod recovering;
