// The naming run: its position, its rounds, and steps of it on a cluster file.
#![tactic(auto)]

pub mod advance;
mod names;
pub mod pass;
pub mod position;
pub mod run;
mod sending;
pub mod standing;
pub mod steps;
