#![tactic(auto)]
// The functions that C and Rust call, on numbers and byte slices.
pub mod arms;
pub mod losses;
pub mod matrices;
pub mod numbers;
pub mod objectives;
pub mod one_block_slopes;
pub mod shapes;
pub mod transformations;
