//! Tests of what directories open to, and of directories that are cleared and brought up, through the public calls of
//! `nn_load`, `nn_choose` and `nn_remake`, over a host in memory and over real folders. It has no items but tests.
#![tactic(auto)]

#[cfg(test)]
mod clearing;
#[cfg(test)]
mod loading;
#[cfg(test)]
mod picking;
#[cfg(test)]
mod real;
#[cfg(test)]
mod topping;
#[cfg(test)]
mod unusual;
