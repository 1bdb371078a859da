#![tactic(auto)]
// Stored answers of the byte calls: each call is asked what a record stores, and its answer is held against the stored one.
pub mod arm_cases;
pub mod numbers;
pub mod objective_cases;
pub mod outputs;
pub mod table;
