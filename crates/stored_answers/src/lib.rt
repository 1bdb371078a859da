#![tactic(auto)]
// Stored lists of answers: how a record is read, when an answer agrees with it, and how a program replays a list and reports.
pub mod agree;
pub mod damage;
pub mod input;
pub mod program;
pub mod report;
pub mod stored;
pub mod tally;
