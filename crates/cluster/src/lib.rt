// The simulated cluster: one frame on a cluster file, and a complete master-slave round as a master sends it.
#![tactic(auto)]

pub mod answer;
pub mod msa;
pub mod msd;
pub mod round;
pub mod sending;
