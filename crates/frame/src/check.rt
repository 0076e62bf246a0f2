// Check bytes: the firework of the round is folded in.
ghost use Rattle.std.specs.Prelude.{◌≡◌, [], ◌∷◌};
ghost use Rattle.frame.specs.Rules.Check.{check_of, address_check, data_check};

use crate::firework::{MSA, MSD};

#[tactic(auto, unfolding(crate::specs::Rules::Check::check_of, crate::specs::Rules::Check::exclusive_or))]
fn check_of(firework: u8, bytes: &[u8; 4]) -> u8
    ensures { result ≡ check_of firework bytes.now }
{
    firework ^ (bytes[0] ^ (bytes[1] ^ (bytes[2] ^ bytes[3])))
}

#[tactic(auto, unfolding(crate::specs::Rules::Check::address_check))]
pub fn address_check(b0: u8, b1: u8, b2: u8, b3: u8) -> u8
    ensures { result ≡ address_check (b0 ∷ b1 ∷ b2 ∷ b3 ∷ []) }
{
    check_of(MSA, &[b0, b1, b2, b3])
}

// The check of an MSD's data, and of a slave's reply to a read.
#[tactic(auto, unfolding(crate::specs::Rules::Check::data_check))]
pub fn data_check(b0: u8, b1: u8, b2: u8, b3: u8) -> u8
    ensures { result ≡ data_check (b0 ∷ b1 ∷ b2 ∷ b3 ∷ []) }
{
    check_of(MSD, &[b0, b1, b2, b3])
}
