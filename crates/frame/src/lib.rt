// Frames on the bus: the firework that opens a round, and the reader and the writers of master-slave frames.
#![tactic(auto)]

pub mod check;
pub mod firework;
pub mod frames;
pub mod reader;
pub mod types;
pub mod writer;
