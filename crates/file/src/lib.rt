// The cluster file: its checker, the readers of header, slaves and records, and the stores.
#![tactic(auto)]

pub mod copying;
mod header;
pub mod held;
pub mod layout;
pub mod names;
pub mod numbers;
pub mod operations;
pub mod readers;
pub mod records;
pub mod survey;
pub mod types;
mod walk;
pub mod writers;
