#![tactic(auto)]
// What the calls, the gradients and the losses hand on as one value: a list of floats, each part at a fixed place.
pub mod lay;
pub mod parts;
pub mod picks;

// The list's length.
pub const LENGTH: usize = 172;
