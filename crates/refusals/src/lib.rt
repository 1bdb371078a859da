#![tactic(auto)]
// With what bad input is refused: of the refusals that apply the one with the lowest number wins.
pub mod lengths;
pub mod lent;
pub mod load;
mod range;
pub mod refusal;
pub mod shape;
pub mod tools;
