//! Tests of how the words of a command line are read, through the public calls of `nn_top`.
#![tactic(auto)]

#[cfg(test)]
mod words;
