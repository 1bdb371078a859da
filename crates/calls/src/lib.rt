#![tactic(auto)]
// What each call answers on lists that are lent, once the arms are known to be good.
pub mod answer;
pub mod frames;
pub mod measure;
pub mod one_block_slopes;
pub mod slopes;
pub mod value;
