// The text of the listing program.
#![tactic(auto)]

mod put;
pub mod run;
