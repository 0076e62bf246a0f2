// Which round a byte opens.
ghost use Rattle.std.specs.Prelude.{◌≡◌};
ghost use Rattle.frame.specs.Rules.Fireworks.{round_of};
ghost use Rattle.frame.specs.Inner.FrameAnswers.{firework_round};
ghost use Rattle.frame.specs.Inner.FireworkBits.{high_bits};

pub const MSA: u8 = 0x55;

pub const MSD: u8 = 0x49;

#[derive(Clone, Copy, PartialEq, Eq)]
pub enum Firework {
    // A multipartner round, by its number.
    Multipartner(u8),
    // Round 1, MSD.
    Data,
    // Round 5, MSA.
    Address,
}

// A byte is a firework exactly if its bits 7 to 3 are those that its bits 2 to 0, the round's number, ask for: 01111 in round 0; each bit
// set in the number turns two of them over: its bit 0 turns over bits 5 and 4 of the byte, bit 1 bits 7 and 6, bit 2 bits 4 and 3.
#[tactic(auto, unfolding(crate::specs::Inner::FireworkBits::high_bits))]
fn high_bits(round: u8) -> u8
    ensures { result ≡ high_bits round }
{
    let by_bit_0 = 0b00110 * (round % 2);
    let by_bit_1 = 0b11000 * (round / 2 % 2);
    let by_bit_2 = 0b00011 * (round / 4 % 2);
    0b01111 ^ (by_bit_0 ^ (by_bit_1 ^ by_bit_2))
}

pub fn firework_of(byte: u8) -> Option<Firework>
    ensures { firework_round result ≡ round_of byte }
{
    let round = byte % 8;
    if byte / 8 != high_bits(round) {
        return None;
    }
    match round {
        1 => Some(Firework::Data),
        5 => Some(Firework::Address),
        round => Some(Firework::Multipartner(round)),
    }
}
