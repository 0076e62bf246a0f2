// The summary beside a cluster file: each slave's logical name in table order. Filled from the file, asked who holds a name, and kept
// true by every round and naming step that it is given to.
#![tactic(auto)]

pub mod fill;
pub mod holder;
pub mod matching;
pub mod round;
pub mod step;
