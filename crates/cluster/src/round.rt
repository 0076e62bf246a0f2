// One frame on a cluster file: grounds 10 to 14 on an accepted file, and the call from outside, which checks the file first.
ghost use Rattle.std.specs.Prelude.{◌≡◌, ◌≤◌, length};
ghost use Rattle.file.specs.Rules.Decode.{decode};
ghost use Rattle.file.specs.Inner.Accepted.{Placed};
ghost use Rattle.file.specs.Inner.Refusals.{outcome_of};
ghost use Rattle.frame.specs.Inner.FrameAnswers.{firework_round};
ghost use Rattle.master_slave.specs.Rules.Bus.{slots};
ghost use Rattle.cluster.specs.Rules.RoundGrounds.{round_by_lem};
ghost use Rattle.cluster.specs.Rules.Round.{round_on};
ghost use Rattle.cluster.specs.Inner.Exchanged.{Exchanged};
ghost use Rattle.cluster.specs.Inner.Unheard.{MaySleep, LeftUnheard};

use crate::answer::{Unheard, is_carried};
use crate::msa::{pend_address, take_address};
use crate::msd::{FIREWORK_SIZE, take_data, take_unheard};
use file::survey::survey;
use file::types::{PLACES, Refusal, SlavePlaces};
use frame::firework::{Firework, firework_of};
use frame::frames::FIREWORK_PLACE;
use master_slave::slots::SLOTS;
use multipartner::multipartner::carry_multipartner;

// The round that a frame opens, by its first byte.
pub fn firework_in(frame: &[u8]) -> Option<Firework>
    ensures { firework_round result ≡ round_by_lem frame.now }
{
    if frame.len() == 0 {
        return None;
    }
    firework_of(frame[FIREWORK_PLACE])
}

// One frame of any bytes on a file that is known to be accepted, with the places that its survey handed back.
pub fn one_frame(
    file: &mut [u8],
    places: &SlavePlaces,
    frame: &[u8],
    buffer: &mut [u8],
) -> Result<u64, Refusal>
    requires { Placed file.old places.now × (slots ≤ length buffer.old) }
    ensures { Exchanged (decode file.old) frame.now buffer.old buffer.new (outcome_of result) file.new }
{
    let Some(firework) = firework_in(frame) else {
        return Err(Refusal::Firework);
    };
    match firework {
        Firework::Address => take_address(file, frame, buffer),
        Firework::Data => take_data(file, places, frame, buffer),
        Firework::Multipartner(round) => {
            if frame.len() != FIREWORK_SIZE {
                return Err(Refusal::FrameLength);
            }
            Ok(carry_multipartner(file, places, round, frame[FIREWORK_PLACE], buffer))
        }
    }
}

// The same of a frame that nobody hears, by the round that it opens. Whether someone may be asleep before it, and afterwards. Each of its four
// arms calls another function than that of `one_frame` or answers otherwise: the two differ in more than a type or a constant.
pub fn one_unheard(
    file: &mut [u8],
    places: &SlavePlaces,
    firework: Option<Firework>,
    frame: &[u8],
    buffer: &mut [u8],
    sleepers: bool,
) -> Unheard
    requires { Placed file.old places.now × (firework_round firework ≡ round_by_lem frame.now) × (slots ≤ length buffer.old) × MaySleep sleepers (decode file.old) }
    ensures { LeftUnheard (decode file.old) frame.now result.carried result.sleepers file.new }
{
    let Some(opened) = firework else {
        return Unheard {
            carried: false,
            sleepers,
        };
    };
    match opened {
        Firework::Address => {
            let answer = pend_address(file, frame);
            Unheard {
                carried: is_carried(answer),
                sleepers,
            }
        }
        Firework::Data => take_unheard(file, places, frame, buffer, sleepers),
        Firework::Multipartner(round) => {
            if frame.len() != FIREWORK_SIZE {
                return Unheard {
                    carried: false,
                    sleepers,
                };
            }
            carry_multipartner(file, places, round, frame[FIREWORK_PLACE], buffer);
            Unheard {
                carried: true,
                sleepers: false,
            }
        }
    }
}

// One frame on a file: refused by its number, with nothing altered, or carried out, with the mask of the slots in which someone
// sent.
pub fn round(file: &mut [u8], frame: &[u8], buffer: &mut [u8]) -> Result<u64, Refusal>
    ensures { (outcome_of result, buffer.new, file.new) ≡ round_on file.old frame.now buffer.old }
{
    let mut places = [0u16; PLACES];
    survey(file, &mut places)?;
    if buffer.len() < SLOTS {
        return Err(Refusal::Buffer);
    }
    one_frame(file, &places, frame, buffer)
}
