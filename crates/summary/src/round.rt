// A round that is given a summary and keeps it true.
ghost use Rattle.std.specs.Prelude.{◌≡◌, ◌≤◌, length};
ghost use Rattle.file.specs.Inner.Accepted.{Placed, slave_count};
ghost use Rattle.file.specs.Inner.Refusals.{outcome_of};
ghost use Rattle.master_slave.specs.Rules.Bus.{slots};
ghost use Rattle.cluster.specs.Rules.Summary.{kept, round_keeping};
ghost use Rattle.summary.specs.Inner.Kept.{RoundKept};

use crate::matching::is_wrong;
use cluster::round::one_frame;
use file::readers::logical_names;
use file::survey::survey;
use file::types::{PLACES, Refusal, SlavePlaces};
use master_slave::slots::SLOTS;

// One frame on a file that is known to be accepted; where it is carried out, the names that the file then holds are put into the slice.
fn carry_keeping(
    file: &mut [u8],
    places: &SlavePlaces,
    frame: &[u8],
    buffer: &mut [u8],
    held: &mut [u8],
) -> Result<u64, Refusal>
    requires { Placed file.old places.now × (slots ≤ length buffer.old) × (slave_count file.old ≤ length held.old) }
    ensures { RoundKept file.old frame.now buffer.old held.old (outcome_of result) buffer.new file.new held.new }
{
    let mask = one_frame(file, places, frame, buffer)?;
    logical_names(file, places, held);
    Ok(mask)
}

// One frame on a file with its summary: refused by its number, with nothing altered, or carried out, with the mask of the slots in
// which someone sent. The file is checked once.
pub fn round_keeping(
    file: &mut [u8],
    frame: &[u8],
    buffer: &mut [u8],
    held: &mut [u8],
    count: usize,
) -> Result<u64, Refusal>
    ensures { (outcome_of result, buffer.new, file.new, kept count held.new)
        ≡ round_keeping file.old (kept count held.old) frame.now buffer.old }
{
    let mut places = [0u16; PLACES];
    survey(file, &mut places)?;
    if is_wrong(file, &places, held, count) {
        return Err(Refusal::Summary);
    }
    if buffer.len() < SLOTS {
        return Err(Refusal::Buffer);
    }
    carry_keeping(file, &places, frame, buffer, held)
}
