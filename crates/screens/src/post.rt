// A screen posts a read.
ghost use Rattle.std.specs.Prelude.{◌≡◌};
ghost use Rattle.file.specs.Rules.Order.{first_of};
ghost use Rattle.file.specs.Rules.Results.{number_in};
ghost use Rattle.file.specs.Inner.Refusals.{outcome_of};
ghost use Rattle.screens.specs.Rules.Screens.{read_grounds, post_on};
ghost use Rattle.screens.specs.Inner.Parts.{read_in, PostGround};

use crate::state::{LAST_SCREEN, LAST_SERVED, ScreenState, WAITING, is_waiting, place_of};
use file::types::{FileNumber, LogicalName, Refusal};
use master_slave::types::RecordAddress;

// 18 and 14 on a read that is posted or due.
pub fn read_ground(read: RecordAddress) -> Result<(), Refusal>
    ensures { number_in (outcome_of result) ≡ first_of (read_grounds (read_in read)) }
{
    if FileNumber::LAST < read.number {
        return Err(Refusal::FileNumber);
    }
    if read.name == LogicalName::BROADCAST {
        return Err(Refusal::BroadcastRead);
    }
    Ok(())
}

fn post_ground(state: &ScreenState, screen: u8, read: RecordAddress) -> Result<(), Refusal>
    ensures { PostGround state.now screen (read_in read) (number_in (outcome_of result)) }
{
    if LAST_SCREEN < screen {
        return Err(Refusal::Screen);
    }
    if LAST_SCREEN < state[LAST_SERVED] {
        return Err(Refusal::Screen);
    }
    if is_waiting(state, screen) {
        return Err(Refusal::ScreenWaiting);
    }
    read_ground(read)
}

// "Each may post one read: name, file, record."
pub fn post(state: &mut ScreenState, screen: u8, read: RecordAddress) -> Result<(), Refusal>
    ensures { (outcome_of result, state.new) ≡ post_on state.old screen (read_in read) }
{
    post_ground(state, screen, read)?;
    let place = place_of(screen);
    state[place] = WAITING;
    state[place + 1] = read.name.0;
    state[place + 2] = read.number.0;
    state[place + 3] = read.record.0;
    Ok(())
}
