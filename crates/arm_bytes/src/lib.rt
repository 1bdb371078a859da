#![tactic(auto)]
// The byte calls on an arm sheet.
mod arm_lists;
pub mod arms;
pub mod tools;
