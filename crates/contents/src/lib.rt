// The bytes of a slave's file, for a program that looks into a cluster without a round.
#![tactic(auto)]

pub mod read;
