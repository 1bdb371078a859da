#![tactic(auto)]
// How far the stand-ins reach, in specs/. No code.
