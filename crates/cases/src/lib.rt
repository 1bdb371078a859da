#![tactic(auto)]
// The worked cases of document 01 that are proved, in specs/Table.antt. No code.
