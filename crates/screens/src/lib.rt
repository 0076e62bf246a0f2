// Up to eight screens share one tester: each posts a read, and a turn serves the next that waits.
#![tactic(auto)]

pub mod post;
pub mod state;
pub mod turn;
