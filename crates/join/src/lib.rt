// Two clusters joined into one cluster file (document 02, job 13).
#![tactic(auto)]

mod form;
pub mod join;
mod names;
mod slaves;
