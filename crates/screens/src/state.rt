// The screens' state: the screen last served, and the read that each screen has posted.
ghost use Rattle.std.specs.Prelude.{◌≡◌, ◌+◌, ◌<◌, length};
ghost use Rattle.screens.specs.Rules.Screens.{screens, place_of, next_screen, last_served, is_waiting, fresh, due};
ghost use Rattle.screens.specs.Rules.Turn.{after_serving};
ghost use Rattle.screens.specs.Inner.ScreenAnswers.{due_of};
ghost use Rattle.screens.specs.Inner.Parts.{ReadAt, PostedRead};

use file::types::{FileNumber, LogicalName, RecordNumber};
use master_slave::types::RecordAddress;

const SCREENS: u8 = 8;

pub const LAST_SCREEN: u8 = 7;

// Byte 0 is the screen last served; then four bytes for each screen: whether it waits, and its read. An array of bytes and no struct: the caller
// keeps it, and hands in 33 bytes of any content (the C interface).
pub const STATE_SIZE: usize = 33;

pub const LAST_SERVED: usize = 0;

const READS: usize = 1;

const READ_SIZE: usize = 4;

pub const WAITING: u8 = 1;

const IDLE: u8 = 0;

pub type ScreenState = [u8; STATE_SIZE];

// "from screen 0 at the start": the one last served is the last.
#[tactic(auto, unfolding(crate::specs::Rules::Screens::fresh))]
pub fn fresh_state() -> ScreenState
    ensures { result ≡ fresh }
{
    let mut state = [0u8; STATE_SIZE];
    state[LAST_SERVED] = LAST_SCREEN;
    state
}

#[tactic(auto, unfolding(crate::specs::Rules::Screens::place_of))]
pub fn place_of(screen: u8) -> usize
    requires { screen < screens }
    ensures { (result ≡ place_of screen) × (result + 3 < 33) }
{
    READS + READ_SIZE * (screen as usize)
}

#[tactic(auto, unfolding(crate::specs::Rules::Screens::is_waiting))]
pub fn is_waiting(state: &ScreenState, screen: u8) -> bool
    requires { screen < screens }
    ensures { result ≡ is_waiting state.now screen }
{
    let place = place_of(screen);
    state[place] != IDLE
}

#[tactic(auto, unfolding(crate::specs::Rules::Screens::next_screen))]
fn next_screen(screen: u8) -> u8
    requires { screen < screens }
    ensures { result ≡ next_screen screen }
{
    (screen + 1) % SCREENS
}

// "the next waiting screen after the one last served, in cyclic order": that one itself is asked last. None where nobody waits.
pub fn due_screen(state: &ScreenState) -> Option<u8>
    requires { last_served state.now < screens }
    ensures { due_of result ≡ due state.now }
{
    let mut screen = state[LAST_SERVED];
    'screens: for asked in 0..SCREENS {
        screen = next_screen(screen);
        if is_waiting(state, screen) {
            return Some(screen);
        }
    }
    None
}

// The read in a screen's four bytes. Of a slice, since the elements of a lent array are not known to be bytes.
fn read_at(state: &[u8], place: usize) -> RecordAddress
    requires { place + 3 < length state.now }
    ensures { ReadAt state.now place result }
{
    let name = LogicalName::new(state[place + 1]);
    let number = FileNumber(state[place + 2]);
    let record = RecordNumber(state[place + 3]);
    RecordAddress {
        name,
        number,
        record,
    }
}

pub fn posted_read(state: &ScreenState, screen: u8) -> RecordAddress
    requires { screen < screens }
    ensures { PostedRead state.now screen result }
{
    let place = place_of(screen);
    read_at(state, place)
}

// A screen that is served is the one last served, and waits no more.
#[tactic(auto, unfolding(crate::specs::Rules::Turn::after_serving))]
pub fn mark_served(state: &mut ScreenState, screen: u8)
    requires { screen < screens }
    ensures { state.new ≡ after_serving state.old screen }
{
    let place = place_of(screen);
    state[LAST_SERVED] = screen;
    state[place] = IDLE;
}
