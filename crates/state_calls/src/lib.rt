#![tactic(auto)]
// The state, every refusal, and the calls on the state.
pub mod arms;
pub mod load;
pub mod objective;
pub mod one_block_slopes;
pub mod party;
pub mod state;
mod stored_task;
pub mod tool;
pub mod weights;
