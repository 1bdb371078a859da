#![tactic(auto)]
// The one-block gradient: each joint is raised in the lent block itself, the links from its own to its chain's end are walked again, and the joint is put back.
pub mod grad;
pub mod walk;
