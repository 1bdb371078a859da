#![tactic(auto)]
// The numbers of document 01's section 'Stand-ins', the square root apart.
pub mod cut;
pub mod power;
mod reduction;
pub mod series;
