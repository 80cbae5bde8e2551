//! Tests of the words, the formats and the images, through the public calls of their crates: texts and bytes that were spelled outside, the order of faults, and each call that allocates once with ample memory.
//! It holds nothing but tests: a crate with tests is proved twice, so none of those crates has its own.
#![tactic(auto)]

#[cfg(test)]
mod base;
#[cfg(test)]
mod image;
#[cfg(test)]
mod limits;
#[cfg(test)]
mod marks;
#[cfg(test)]
mod message;
#[cfg(test)]
mod record;
#[cfg(test)]
mod segment;
#[cfg(test)]
mod sets;
#[cfg(test)]
mod strtab;
#[cfg(test)]
mod wire;
