#![tactic(auto)]
// Vectors, quaternions and poses by value, and what is built on them.
pub mod matrix;
pub mod pose;
pub mod quaternion;
pub mod segment;
pub mod vector;
