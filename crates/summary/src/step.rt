// A naming step that is given a summary and keeps it true.
ghost use Rattle.std.specs.Prelude.{◌≡◌, ◌≤◌, length};
ghost use Rattle.file.specs.Inner.Accepted.{Placed, slave_count};
ghost use Rattle.cluster.specs.Rules.Summary.{kept};
ghost use Rattle.naming.specs.Rules.Step.{step_keeping};
ghost use Rattle.naming.specs.Inner.StepAnswers.{position_of, stepped_of, run_after};
ghost use Rattle.summary.specs.Inner.Kept.{StepKept};

use crate::matching::is_wrong;
use file::readers::logical_names;
use file::survey::survey;
use file::types::{PLACES, Refusal, SlavePlaces};
use naming::position::RunPosition;
use naming::run::{MadeStep, step_on};

// A step on a file that is known to be accepted; unless it is refused the names that the file then holds are put into the slice.
fn keep_step(
    file: &mut [u8],
    places: &SlavePlaces,
    run: RunPosition,
    names: &[u8],
    answer: &mut [u8],
    held: &mut [u8],
) -> Result<Option<MadeStep>, Refusal>
    requires { Placed file.old places.now × (slave_count file.old ≤ length held.old) }
    ensures { StepKept file.old (position_of run) names.now answer.old held.old (stepped_of result) (run_after (position_of run) result) answer.new file.new held.new }
{
    let stepped = step_on(file, places, run, names, answer)?;
    logical_names(file, places, held);
    Ok(stepped)
}

// One step with the file's summary: the file is checked once, and its round is carried out on it.
pub fn step_keeping(
    file: &mut [u8],
    run: RunPosition,
    names: &[u8],
    answer: &mut [u8],
    held: &mut [u8],
    count: usize,
) -> Result<Option<MadeStep>, Refusal>
    ensures { (stepped_of result, run_after (position_of run) result, answer.new, file.new, kept count held.new)
        ≡ step_keeping file.old (position_of run) names.now (kept count held.old) answer.old }
{
    let mut places = [0u16; PLACES];
    survey(file, &mut places)?;
    if is_wrong(file, &places, held, count) {
        return Err(Refusal::Summary);
    }
    keep_step(file, &places, run, names, answer, held)
}
