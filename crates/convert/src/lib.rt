// A cluster file in the other edition (document 02, job 10), and the parts by which a cluster file is written: bytes, sizes, the header,
// the slave table, the slaves.
#![tactic(auto)]

pub mod convert;
mod directory;
pub mod editions;
pub mod header;
pub mod put;
pub mod sizes;
pub mod slaves;
pub mod table;
