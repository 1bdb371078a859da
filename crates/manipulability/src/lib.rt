#![tactic(auto)]
// The Jacobian of a chain and the manipulability of an arm, of poses read through a view.
pub mod jacobian;
pub mod robot;
pub mod view;
