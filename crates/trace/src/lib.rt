// Running a captured trace on a cluster file.
#![tactic(auto)]

mod layout;
pub mod report;
pub mod run;
