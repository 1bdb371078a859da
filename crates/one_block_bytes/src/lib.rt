#![tactic(auto)]
// The byte call of the one-block gradient.
mod one_block_lists;
pub mod slopes;
