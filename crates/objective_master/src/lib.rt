#![tactic(auto)]
// objective_master.rs: the list of objectives, what each costs, and the weighted sum.
pub mod count;
pub mod losses;
pub mod relaxed_ik;
pub mod strict;
pub mod weights;
