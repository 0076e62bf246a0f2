// A position at the next round really made: needless writes are passed over.
ghost use Rattle.std.specs.Prelude.{◌≡◌, ◌+◌, ◌≤◌};
ghost use Rattle.naming.specs.Rules.Pass.{last_step};
ghost use Rattle.naming.specs.Rules.Run.{at_step};
ghost use Rattle.naming.specs.Inner.StepAnswers.{position_of, WritesAt, NeedlessFrom, Stands};

use crate::pass::{FIRST_REPLY, HALF, HIGH, LOW, Writing, writing_at};
use crate::position::{RunPlace, RunPosition};

// How many needless writes follow one another from its step on: after the first comparison of a pass, a half that is the one last written.
pub fn needless_writes(run: RunPosition, writing: Writing) -> u64
    requires { (run.place.step ≤ last_step) × WritesAt run.place.step run.place.value writing.part writing.value }
    ensures { NeedlessFrom (position_of run) writing.part result }
{
    if run.place.step <= FIRST_REPLY {
        return 0;
    }
    if writing.part == HIGH {
        if writing.value / HALF != run.halves.high {
            return 0;
        }
        if writing.value % HALF != run.halves.low {
            return 1;
        }
        return 2;
    }
    if writing.part != LOW {
        return 0;
    }
    if writing.value % HALF != run.halves.low {
        return 0;
    }
    1
}

// So many steps on.
#[tactic(auto, unfolding(crate::specs::Rules::Run::at_step))]
pub fn passed_over(run: RunPosition, steps: u64) -> RunPosition
    requires { run.place.step + steps ≤ last_step }
    ensures { position_of result ≡ at_step (run.place.step + steps) (position_of run) }
{
    RunPosition {
        place: RunPlace {
            step: run.place.step + steps,
            ..run.place
        },
        ..run
    }
}

// A position at the next round really made, at a step of a pass, and what that round writes.
#[derive(Clone, Copy)]
pub struct Standing {
    pub run: RunPosition,
    pub writing: Writing,
    pub ghost place: { run.place.step ≤ last_step },
    pub ghost writes: { WritesAt run.place.step run.place.value writing.part writing.value },
}

pub fn standing_at(run: RunPosition) -> Standing
    requires { run.place.step ≤ last_step }
    ensures { Stands (position_of run) (position_of result.run) result.writing.part result.writing.value }
{
    let writing = writing_at(run.place.step, run.place.value);
    let needless = needless_writes(run, writing);
    Standing {
        run: passed_over(run, needless),
        writing: Writing {
            part: writing.part + needless,
            ..writing
        },
    }
}
