// A naming run over names 0x01 to 0xFE, listed as it goes.
ghost use Rattle.std.specs.Prelude.{◌≡◌, ◌≤◌, length};
ghost use Rattle.listing_text.specs.Rules.Listing.{all_names, list_steps, most_steps, listed};
ghost use Rattle.listing_text.specs.Rules.Listing.{list_step as Listing·list_step};
ghost use Rattle.file.specs.Rules.FileGrounds.{load_ground};
ghost use Rattle.file.specs.Inner.Accepted.{Placed};
ghost use Rattle.master_slave.specs.Rules.Bus.{slots};
ghost use Rattle.naming.specs.Inner.StepAnswers.{position_of};
ghost use Rattle.listing_text.specs.Inner.ListRuns.{state_of, Room, StateIs, Moves, StepListed, moved_to, none_given};
ghost use Rattle.listing_text.specs.Rules.Listing.{text_size};

use crate::put::{LINE_SIZE, TOTALS_SIZE, put_name, put_refused, put_totals};
use file::survey::{check, survey};
use file::types::{PLACES, SlavePlaces};
use master_slave::slots::SLOTS;
use naming::pass::LAST_STEP;
use naming::position::{RunPosition, first_position};
use naming::run::step_on;
use naming::steps::make_steps;

// "names 0x01 to 0xFE".
const FIRST_NAME: u8 = 0x01;

const NAME_COUNT: usize = 254;

// Every pass has at most as many rounds as it has steps.
const MOST_STEPS: u64 = (NAME_COUNT as u64) * (LAST_STEP + 1);

// A line for each name, and the totals.
pub const TEXT_SIZE: usize = NAME_COUNT * LINE_SIZE + TOTALS_SIZE;

// The run, the comparisons made when its pass began, how many names were given, and where their lines end.
#[derive(Clone, Copy)]
pub struct ListProgress {
    pub run: RunPosition,
    pub begun: u64,
    pub given: u64,
    pub at: usize,
}

fn all_names() -> [u8; NAME_COUNT]
    ensures { result ≡ all_names }
{
    let mut names = [0u8; NAME_COUNT];
    for i in 0..NAME_COUNT {
        names[i] = FIRST_NAME + i as u8;
    }
    names
}

// The run after a step that made its round, with the line of the name that it gave.
fn after_step(names: &[u8], state: ListProgress, next: RunPosition, text: &mut [u8]) -> ListProgress
    requires { (names.now ≡ all_names) × Room state (length text.old) × Moves (position_of state.run) (position_of next) }
    ensures { StepListed state (position_of next) text.old result text.new }
{
    let run = state.run;
    if run.place.step != LAST_STEP {
        return ListProgress { run: next, ..state };
    }
    let index = run.place.index as usize;
    let comparisons = next.counts.comparisons - state.begun;
    let at = put_name(text, state.at, names[index], run.place.value, comparisons);
    ListProgress {
        run: next,
        begun: next.counts.comparisons,
        given: state.given + 1,
        at,
    }
}

// The run after steps that gave no name.
#[tactic(auto, unfolding(crate::specs::Inner::ListRuns::moved_to))]
fn moved_to(state: ListProgress, run: RunPosition) -> ListProgress
    ensures { result ≡ moved_to state run }
{
    ListProgress { run, ..state }
}

// Whether no step is left, or the next one gives no name: the run has then ended, or goes no further.
fn is_over(left: u64, run: RunPosition) -> bool
    ensures { result ≡ none_given left run.place.step }
{
    if left == 0 {
        return true;
    }
    run.place.step != LAST_STEP
}

// One step of the run, on an accepted file and with the places of its slaves.
fn one_step(
    file: &mut [u8],
    places: &SlavePlaces,
    names: &[u8],
    answer: &mut [u8],
    state: ListProgress,
    text: &mut [u8],
) -> ListProgress
    requires { (names.now ≡ all_names) × Room state (length text.old) × Placed file.old places.now }
    ensures { StateIs (Listing·list_step (state_of state file.old answer.old text.old)) text.old state.at result file.new answer.new text.new }
{
    let run = state.run;
    match step_on(file, places, run, names, answer) {
        Ok(Some(made)) => after_step(names, state, made.run, text),
        Ok(None) => state,
        Err(_) => state,
    }
}

// The whole run from a state on: it ends within so many steps. All steps up to the next one that gives a name are made at once, so that `left`
// falls by as many as were made, and no `for` counts it. File and places stay two arguments, as `naming::run` says.
fn all_steps(
    file: &mut [u8],
    places: &SlavePlaces,
    names: &[u8],
    answer: &mut [u8],
    start: ListProgress,
    text: &mut [u8],
) -> ListProgress
    requires { (names.now ≡ all_names) × Room start (length text.old) × Placed file.old places.now × (slots ≤ length answer.old) }
    ensures { StateIs (list_steps most_steps (state_of start file.old answer.old text.old)) text.old start.at result file.new answer.new text.new }
{
    let mut state = start;
    let mut left = MOST_STEPS;
    while 0 < left {
        let made = make_steps(file, places, state.run, names, answer, left, LAST_STEP);
        state = moved_to(state, made.run);
        left = left - made.steps;
        if is_over(left, state.run) {
            return state;
        }
        state = one_step(file, places, names, answer, state, text);
        left = left - 1;
    }
    state
}

// The listing of a file that loading accepts: the file is surveyed once for the whole run.
fn list_accepted(file: &mut [u8], text: &mut [u8]) -> usize
    requires { (load_ground file.old ≡ 0) × (text_size ≤ length text.old) }
    ensures { (result, text.new, file.new) ≡ listed file.old text.old }
{
    let mut places = [0u16; PLACES];
    survey(file, &mut places).unwrap();
    let names = all_names();
    let mut answer = [0u8; SLOTS];
    let start = ListProgress {
        run: first_position(&names),
        begun: 0,
        given: 0,
        at: 0,
    };
    let done = all_steps(file, &places, &names, &mut answer, start, text);
    let run = done.run;
    put_totals(
        text,
        done.at,
        done.given,
        run.counts.comparisons,
        run.counts.rounds,
    )
}

// The listing of a cluster file, which is left as the run leaves it. The text's length.
pub fn list(file: &mut [u8], text: &mut [u8]) -> usize
    requires { text_size ≤ length text.old }
    ensures { (result, text.new, file.new) ≡ listed file.old text.old }
{
    if let Err(why) = check(file) {
        return put_refused(text, 0, why.number());
    }
    list_accepted(file, text)
}
