#![tactic(auto)]
// utils_rust of the source: what strict goals need of transformations.rs, and the inverse cosine that it stands on.
pub mod acos;
pub mod transformations;
