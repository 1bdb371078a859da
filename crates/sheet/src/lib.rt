#![tactic(auto)]
// The arm sheet: what a link's code says, the joints and chains that a list of codes has, and which chains have a tool.
pub mod chain;
pub mod code;
pub mod reader;
pub mod tool;
