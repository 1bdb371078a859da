#![tactic(auto)]
// The objective's side of the arm: its history, and the losses of its objectives.
pub mod objective;
pub mod vars;
