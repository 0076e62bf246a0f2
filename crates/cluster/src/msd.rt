// A data frame on a file that is known to be accepted: refused by its ground, or carried out.
ghost use Rattle.std.specs.Prelude.{◌≡◌, ◌≤◌, length};
ghost use Rattle.file.specs.Rules.Results.{result_of};
ghost use Rattle.file.specs.Rules.Decode.{decode};
ghost use Rattle.file.specs.Inner.Accepted.{AcceptedFile, Placed};
ghost use Rattle.file.specs.Inner.Refusals.{outcome_of};
ghost use Rattle.frame.specs.Rules.Fireworks.{msd};
ghost use Rattle.frame.specs.Rules.Frames.{between};
ghost use Rattle.master_slave.specs.Rules.Bus.{slots};
ghost use Rattle.master_slave.specs.Inner.Duties.{data_effect, data_in};
ghost use Rattle.master_slave.specs.Inner.Carried.{Carried};
ghost use Rattle.cluster.specs.Rules.RoundGrounds.{round_by_lem, write_pending};
ghost use Rattle.cluster.specs.Inner.EachGround.{frame_ground};
ghost use Rattle.cluster.specs.Inner.Exchanged.{Exchanged};
ghost use Rattle.cluster.specs.Inner.RoundAnswers.{data_read};
ghost use Rattle.cluster.specs.Inner.Unheard.{MaySleep, Left, LeftUnheard};

use crate::answer::Unheard;
use file::layout::PENDING;
use file::readers::read_pending;
use file::types::{Operation, Refusal, SlavePlaces};
use frame::check::data_check;
use frame::frames::{CHECK_PLACE, FRAME_SIZE, PB0_PLACE, PB1_PLACE, PB2_PLACE, PB3_PLACE};
use master_slave::epoch::raise_epoch;
use master_slave::master_slave::carry_data;
use master_slave::pending::pending_duty;
use master_slave::sleep::{leaves_slaves, puts_to_sleep};
use master_slave::types::DataBytes;

fn is_write_pending(file: &[u8]) -> bool
    requires { AcceptedFile file.now }
    ensures { result ≡ write_pending (decode file.now) }
{
    let pending = read_pending(file);
    if pending.flag != PENDING {
        return false;
    }
    pending.operation == Operation::WRITE
}

// "MSD is 6 bytes .. if a write is pending, otherwise 1. A multipartner frame is 1 byte.": the firework alone.
pub const FIREWORK_SIZE: usize = 1;

// A data frame is refused, or has these bytes.
fn read_data(file: &[u8], frame: &[u8]) -> Result<DataBytes, Refusal>
    requires { AcceptedFile file.now × (round_by_lem frame.now ≡ msd) }
    ensures { data_read result ≡ result_of (frame_ground (decode file.now) frame.now) (between frame.now) }
{
    if !is_write_pending(file) {
        if frame.len() != FIREWORK_SIZE {
            return Err(Refusal::FrameLength);
        }
        return Ok(DataBytes::NONE);
    }
    if frame.len() != FRAME_SIZE {
        return Err(Refusal::FrameLength);
    }
    let b0 = frame[PB0_PLACE];
    let b1 = frame[PB1_PLACE];
    let b2 = frame[PB2_PLACE];
    let b3 = frame[PB3_PLACE];
    if frame[CHECK_PLACE] != data_check(b0, b1, b2, b3) {
        return Err(Refusal::Check);
    }
    Ok(DataBytes { b0, b1, b2, b3 })
}

// A data frame: the pending operation is carried out.
pub fn take_data(
    file: &mut [u8],
    places: &SlavePlaces,
    frame: &[u8],
    buffer: &mut [u8],
) -> Result<u64, Refusal>
    requires { Placed file.old places.now × (round_by_lem frame.now ≡ msd) × (slots ≤ length buffer.old) }
    ensures { Exchanged (decode file.old) frame.now buffer.old buffer.new (outcome_of result) file.new }
{
    let bytes = read_data(file, frame)?;
    Ok(carry_data(file, places, bytes, buffer))
}

// The data part of a round that nobody hears. Whether someone may be asleep, before and afterwards: where nobody is, a duty that leaves the
// slaves as they are raises the epoch alone.
fn carry_unheard(
    file: &mut [u8],
    places: &SlavePlaces,
    bytes: DataBytes,
    buffer: &mut [u8],
    sleepers: bool,
) -> bool
    requires { Placed file.old places.now × (slots ≤ length buffer.old) × MaySleep sleepers (decode file.old) }
    ensures { Left (data_effect (decode file.old) (data_in bytes)).after result file.new }
{
    let pending = pending_duty(file);
    let duty = pending.duty;
    if leaves_slaves(duty) {
        if !sleepers {
            raise_epoch(file);
            return false;
        }
    }
    carry_data(file, places, bytes, buffer);
    puts_to_sleep(duty)
}

// A data frame that nobody hears. No twin of `take_data`: it carries out less (`carry_unheard`) and answers who may be asleep, and no mask.
pub fn take_unheard(
    file: &mut [u8],
    places: &SlavePlaces,
    frame: &[u8],
    buffer: &mut [u8],
    sleepers: bool,
) -> Unheard
    requires { Placed file.old places.now × (round_by_lem frame.now ≡ msd) × (slots ≤ length buffer.old) × MaySleep sleepers (decode file.old) }
    ensures { LeftUnheard (decode file.old) frame.now result.carried result.sleepers file.new }
{
    let reading = read_data(file, frame);
    match reading {
        Err(_) => Unheard {
            carried: false,
            sleepers,
        },
        Ok(bytes) => {
            let asleep = carry_unheard(file, places, bytes, buffer, sleepers);
            Unheard {
                carried: true,
                sleepers: asleep,
            }
        }
    }
}
