// A turn: the read of the screen that is due, carried out on a cluster file.
ghost use Rattle.std.specs.Prelude.{◌≡◌, ◌≤◌, ◌<◌, length};
ghost use Rattle.std.specs.Prelude.{Ok};
ghost use Rattle.file.specs.Rules.Order.{first_of};
ghost use Rattle.file.specs.Rules.Results.{number_in};
ghost use Rattle.file.specs.Inner.Refusals.{outcome_of};
ghost use Rattle.file.specs.Inner.Accepted.{Placed};
ghost use Rattle.master_slave.specs.Rules.Bus.{slots};
ghost use Rattle.cluster.specs.Inner.Sending.{sent_for};
ghost use Rattle.screens.specs.Rules.Screens.{screens, last_served, due};
ghost use Rattle.screens.specs.Rules.Turn.{read_sent, state_grounds, turn_made, turn_on};
ghost use Rattle.screens.specs.Inner.ScreenAnswers.{due_of, turned_of};
ghost use Rattle.screens.specs.Inner.Parts.{read_in};

use crate::post::read_ground;
use crate::state::{LAST_SCREEN, LAST_SERVED, ScreenState, due_screen, mark_served, posted_read};
use cluster::sending::send;
use file::survey::survey;
use file::types::{Operation, PLACES, Refusal, SlavePlaces};
use master_slave::slots::SLOTS;
use master_slave::types::{MasterSlaveRound, RecordAddress};

// A screen that was served, and the mask of its read's data frame.
#[derive(Clone, Copy)]
pub struct Served {
    pub screen: u8,
    pub senders: u64,
}

// A read, as a complete round.
#[tactic(auto, unfolding(crate::specs::Rules::Turn::read_sent))]
fn read_round(read: RecordAddress) -> MasterSlaveRound
    ensures { sent_for result ≡ read_sent (read_in read) }
{
    MasterSlaveRound {
        name: read.name,
        number: read.number,
        operation: Operation::READ,
        record: read.record,
        b0: 0,
        b1: 0,
        b2: 0,
        b3: 0,
    }
}

// 18 and 14 on the read that is due, of a state that 27 does not refuse. Neither holds where nobody waits.
fn due_ground(state: &ScreenState, next: Option<u8>) -> Result<(), Refusal>
    requires { (last_served state.now < screens) × (due_of next ≡ due state.now) }
    ensures { number_in (outcome_of result) ≡ first_of (state_grounds state.now) }
{
    match next {
        None => Ok(()),
        Some(screen) => read_ground(posted_read(state, screen)),
    }
}

// The turn, where no ground refuses it: nothing where nobody waits, or the round of the read that is due. File and places stay two arguments, as `naming::run`
// says.
fn serve(
    file: &mut [u8],
    places: &SlavePlaces,
    state: &mut ScreenState,
    next: Option<u8>,
    buffer: &mut [u8],
) -> Option<Served>
    requires { (due_of next ≡ due state.old) × (first_of (state_grounds state.old) ≡ 0) × Placed file.old places.now × (slots ≤ length buffer.old) }
    ensures { (turned_of (Ok result), state.new, buffer.new, file.new) ≡ turn_made (due state.old) state.old file.old buffer.old }
{
    match next {
        None => None,
        Some(screen) => {
            let read = posted_read(state, screen);
            let senders = send(file, places, read_round(read), buffer);
            mark_served(state, screen);
            Some(Served { screen, senders })
        }
    }
}

// "A turn serves the next waiting screen after the one last served"
pub fn turn(
    file: &mut [u8],
    state: &mut ScreenState,
    buffer: &mut [u8],
) -> Result<Option<Served>, Refusal>
    ensures { (turned_of result, state.new, buffer.new, file.new) ≡ turn_on state.old file.old buffer.old }
{
    if LAST_SCREEN < state[LAST_SERVED] {
        return Err(Refusal::Screen);
    }
    let next = due_screen(state);
    due_ground(state, next)?;
    let mut places = [0u16; PLACES];
    survey(file, &mut places)?;
    if buffer.len() < SLOTS {
        return Err(Refusal::Buffer);
    }
    Ok(serve(file, &places, state, next, buffer))
}
