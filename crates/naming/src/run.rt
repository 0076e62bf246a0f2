// The calls of a naming run: a fresh run, and one step of a run.
ghost use Rattle.std.specs.Prelude.{◌≡◌, ◌<◌};
ghost use Rattle.file.specs.Rules.Order.{first_of};
ghost use Rattle.file.specs.Rules.Results.{done};
ghost use Rattle.file.specs.Inner.Accepted.{Placed};
ghost use Rattle.file.specs.Rules.Results.{number_in};
ghost use Rattle.file.specs.Inner.Refusals.{outcome_of};
ghost use Rattle.naming.specs.Rules.RunGrounds.{start_over, run_grounds};
ghost use Rattle.naming.specs.Rules.Step.{made, step_made, step_on};
ghost use Rattle.naming.specs.Inner.StepAnswers.{position_of, started_of, stepped_of, run_after, StepGoes};

use crate::advance::advanced;
use crate::names::names_ground;
use crate::position::{RUNNING, RunPosition, count_raised, first_position, is_unfit};
use crate::sending::{poll_round, reply_in, round_at};
use crate::standing::standing_at;
use cluster::sending::send;
use file::survey::survey;
use file::types::{LogicalName, PLACES, Refusal, SlavePlaces};
use master_slave::slots::SLOTS;

// A fresh run over a list of names.
pub fn start(names: &[u8]) -> Result<RunPosition, Refusal>
    ensures { started_of result ≡ start_over names.now }
{
    names_ground(names)?;
    Ok(first_position(names))
}

// Grounds 15 to 17.
pub fn run_ground(names: &[u8], run: RunPosition) -> Result<(), Refusal>
    ensures { number_in (outcome_of result) ≡ first_of (run_grounds names.now (position_of run)) }
{
    names_ground(names)?;
    if is_unfit(names, run) {
        return Err(Refusal::RunPosition);
    }
    Ok(())
}

// A step that made its round: the mask of its data frame, and the run.
#[derive(Clone, Copy)]
pub struct MadeStep {
    pub senders: u64,
    pub run: RunPosition,
}

// The extra read that a run begins with, at its first name: its reply is ignored, and only the count of rounds changes.
// File and places, here and in what calls this, stay two arguments with a clause on them (Placed): of a struct that holds the lent file, each
// function has to promise besides that it holds the same file still. So do position and names: each step makes another position, and the
// list stays.
fn extra_step(
    file: &mut [u8],
    places: &SlavePlaces,
    run: RunPosition,
    names: &[u8],
    answer: &mut [u8],
) -> MadeStep
    requires { Placed file.old places.now × StepGoes names.now (position_of run) answer.old × (run.counts.rounds ≡ 0) }
    ensures { (done (made result.senders), position_of result.run, answer.new, file.new) ≡ step_made file.old (position_of run) names.now answer.old }
{
    let first = LogicalName::new(names[0]);
    let next = poll_round(first);
    let senders = send(file, places, next, answer);
    let run = count_raised(run);
    MadeStep { senders, run }
}

// A step that makes a round of its pass.
fn pass_step(
    file: &mut [u8],
    places: &SlavePlaces,
    run: RunPosition,
    names: &[u8],
    answer: &mut [u8],
) -> MadeStep
    requires { Placed file.old places.now × StepGoes names.now (position_of run) answer.old × (0 < run.counts.rounds) }
    ensures { (done (made result.senders), position_of result.run, answer.new, file.new) ≡ step_made file.old (position_of run) names.now answer.old }
{
    let at = standing_at(run);
    let index = at.run.place.index as usize;
    let name = LogicalName::new(names[index]);
    let next = round_at(at, name);
    let senders = send(file, places, next, answer);
    let run = advanced(at, names.len() as u64, reply_in(senders));
    MadeStep { senders, run }
}

// A step of a running position, on an accepted file and with the places of its slaves: the extra read while it counts no round.
pub fn make_step(
    file: &mut [u8],
    places: &SlavePlaces,
    run: RunPosition,
    names: &[u8],
    answer: &mut [u8],
) -> MadeStep
    requires { Placed file.old places.now × StepGoes names.now (position_of run) answer.old }
    ensures { (done (made result.senders), position_of result.run, answer.new, file.new) ≡ step_made file.old (position_of run) names.now answer.old }
{
    if run.counts.rounds == 0 {
        return extra_step(file, places, run, names, answer);
    }
    pass_step(file, places, run, names, answer)
}

// A step on an accepted file, with the places of its slaves: none of an ended run.
pub fn step_on(
    file: &mut [u8],
    places: &SlavePlaces,
    run: RunPosition,
    names: &[u8],
    answer: &mut [u8],
) -> Result<Option<MadeStep>, Refusal>
    requires { Placed file.old places.now }
    ensures { (stepped_of result, run_after (position_of run) result, answer.new, file.new) ≡ step_on file.old (position_of run) names.now answer.old }
{
    if answer.len() < SLOTS {
        return Err(Refusal::Buffer);
    }
    run_ground(names, run)?;
    if run.end != RUNNING {
        return Ok(None);
    }
    Ok(Some(make_step(file, places, run, names, answer)))
}

// One step: the file is checked once, and its round is carried out on it.
pub fn step(
    file: &mut [u8],
    run: RunPosition,
    names: &[u8],
    answer: &mut [u8],
) -> Result<Option<MadeStep>, Refusal>
    ensures { (stepped_of result, run_after (position_of run) result, answer.new, file.new) ≡ step_on file.old (position_of run) names.now answer.old }
{
    let mut places = [0u16; PLACES];
    survey(file, &mut places)?;
    step_on(file, &places, run, names, answer)
}
