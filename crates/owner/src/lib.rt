// Writing the owner file 0x0B: who sends in which slot of which round.
#![tactic(auto)]

mod entries;
mod held;
mod masks;
mod plan;
mod rounds;
pub mod write;
