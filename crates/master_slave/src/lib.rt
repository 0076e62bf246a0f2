// What slaves do in master-slave rounds, on a file that is known to be accepted.
#![tactic(auto)]

pub mod duty;
pub mod epoch;
pub mod master_slave;
pub mod pending;
pub mod slaves;
pub mod sleep;
pub mod slots;
pub mod types;
