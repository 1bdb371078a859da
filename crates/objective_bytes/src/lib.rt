#![tactic(auto)]
// The byte calls on the objective and its slopes.
pub mod objective_lists;
pub mod objectives;
pub mod task_lists;
pub mod weights;
