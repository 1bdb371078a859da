#![tactic(auto)]
// Sizing: how long the frame lists and the one-block record of a sheet are, before any work.
pub mod plan;
pub mod sizing;
