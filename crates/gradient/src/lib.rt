#![tactic(auto)]
// objective_master.rs: `gradient` and `gradient_finite_diff` on two blocks, joints that are read and a scratch block that is raised.
pub mod gradient;
pub mod slopes;
pub mod value;
