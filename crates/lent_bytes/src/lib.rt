#![tactic(auto)]
// Lists that are lent as little-endian bytes.
pub mod bytes;
pub mod element;
pub mod held;
pub mod lent;
pub mod optional;
pub mod picks;
pub mod sheet_lists;
pub mod task_lists;
pub mod tool_lists;
