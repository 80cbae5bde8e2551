//! The namespace linked by index: `ArenaTree`, a `Tree` whose nodes stand in one vector and name their parent, first child and next sibling by number, so that usage, neighbours and room need no scan.
//! It knows nothing of commands, quotas in force, records or images.
#![tactic(auto)]

mod arena;
mod clearing;
mod climb;
mod editing;
mod gap;
mod hints;
mod link;
mod moving;
mod place;
mod tree;

pub use tree::ArenaTree;
