// Several steps of a naming run after one check of file and names.
ghost use Rattle.std.specs.Prelude.{◌≡◌, ◌+◌, ◌≤◌, length};
ghost use Rattle.file.specs.Inner.Accepted.{Placed};
ghost use Rattle.master_slave.specs.Rules.Bus.{slots};
ghost use Rattle.naming.specs.Rules.RunGrounds.{start_ground};
ghost use Rattle.naming.specs.Rules.Steps.{steps_on};
ghost use Rattle.naming.specs.Inner.StepAnswers.{position_of};
ghost use Rattle.naming.specs.Inner.Steps.{steps_of, run_then, steps_end, StepsMade};

use crate::pass::NO_STEP;
use crate::position::{RUNNING, RunPosition, is_unfit};
use crate::run::{make_step, run_ground};
use file::survey::survey;
use file::types::{PLACES, Refusal, SlavePlaces};
use master_slave::slots::{NOBODY, SLOTS};

// Steps that made their rounds: how many, the mask of the last one's data frame, 0 where none did, and the run.
#[derive(Clone, Copy)]
pub struct MadeSteps {
    pub steps: u64,
    pub senders: u64,
    pub run: RunPosition,
}

// Whether no other step is made of a position, on an accepted file: it is at the step that is stopped at, its run has ended, or 17 holds.
fn is_over(names: &[u8], run: RunPosition, until: u64) -> bool
    ensures { result ≡ steps_end names.now until (position_of run) }
{
    if run.place.step == until {
        return true;
    }
    if run.end != RUNNING {
        return true;
    }
    is_unfit(names, run)
}

// Up to so many steps, on an accepted file and with the places of its slaves, over an accepted list. They stop at a step of a pass that the
// caller names (NO_STEP: at none), at the end of the run, and before a step that 17 refuses; no step moves the slaves' files.
pub fn make_steps(
    file: &mut [u8],
    places: &SlavePlaces,
    start: RunPosition,
    names: &[u8],
    answer: &mut [u8],
    most: u64,
    until: u64,
) -> MadeSteps
    requires { Placed file.old places.now × (slots ≤ length answer.old) × (start_ground names.now ≡ 0) }
    ensures { StepsMade names.now until most file.old places.now (position_of start) answer.old result answer.new file.new }
{
    let mut senders = NOBODY;
    let mut run = start;
    for steps in 0..most {
        if is_over(names, run, until) {
            return MadeSteps {
                steps,
                senders,
                run,
            };
        }
        let made = make_step(file, places, run, names, answer);
        senders = made.senders;
        run = made.run;
    }
    MadeSteps {
        steps: most,
        senders,
        run,
    }
}

// Up to so many steps, refused as one is: file, buffer, names and position are checked once, as a step checks them.
pub fn steps(
    file: &mut [u8],
    run: RunPosition,
    names: &[u8],
    answer: &mut [u8],
    most: u64,
) -> Result<MadeSteps, Refusal>
    ensures { (steps_of result, run_then (position_of run) result, answer.new, file.new) ≡ steps_on most file.old (position_of run) names.now answer.old }
{
    let mut places = [0u16; PLACES];
    survey(file, &mut places)?;
    if answer.len() < SLOTS {
        return Err(Refusal::Buffer);
    }
    run_ground(names, run)?;
    Ok(make_steps(file, &places, run, names, answer, most, NO_STEP))
}
