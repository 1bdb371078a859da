#![tactic(auto)]
// The arm: its links walked, the tools at its chains' ends, and the lists of frames.
pub mod arm;
pub mod floats;
pub mod frames;
pub mod tool;
