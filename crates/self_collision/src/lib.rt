#![tactic(auto)]
// The pairs of links that `relaxed_ik` adds for self collision.
pub mod pairs;
