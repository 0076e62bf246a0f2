// How a position moves on, by what was heard in its round.
ghost use Rattle.std.specs.Prelude.{◌≡◌, ℕ, ◌≤◌, ◌<◌};
ghost use Rattle.naming.specs.Rules.Pass.{poll, place_of};
ghost use Rattle.naming.specs.Rules.Run.{move_on};
ghost use Rattle.naming.specs.Rules.RunRounds.{comparison_rounds};
ghost use Rattle.naming.specs.Inner.StepAnswers.{position_of, heard, FitCounts, GoesOn, Wrote, Asks, Advances, Writes};

use crate::pass::{FIRST_REPLY, GIVE_NAME, HALF, HIGH, LAST_STEP, LOW, POLL, REPLY, Writing};
use crate::position::{RunHalves, RunPosition, all_named, go_on, next_name};
use crate::standing::{Standing, needless_writes, passed_over, standing_at};

// Whether someone sent in slot 1 of a round.
#[derive(Clone, Copy)]
pub enum Reply {
    Heard,
    Silence,
}

// With the half that its round wrote.
fn wrote(at: Standing) -> RunPosition
    ensures { Wrote (position_of at.run) (position_of result) }
{
    let run = at.run;
    if at.writing.part == HIGH {
        let halves = RunHalves {
            high: at.writing.value / HALF,
            ..run.halves
        };
        return RunPosition { halves, ..run };
    }
    if at.writing.part == LOW {
        let halves = RunHalves {
            low: at.writing.value % HALF,
            ..run.halves
        };
        return RunPosition { halves, ..run };
    }
    run
}

// After a round that writes a half, at the next round really made: the next step is about the same value.
fn written(at: Standing) -> RunPosition
    requires { FitCounts (position_of at.run) × (at.writing.part < 2) }
    ensures { Writes (position_of at.run) (position_of result) }
{
    let run = wrote(at);
    let next = go_on(run, run.place.value, 0);
    let writing = Writing {
        part: at.writing.part + 1,
        ..at.writing
    };
    let needless = needless_writes(next, writing);
    passed_over(next, needless)
}

// After the poll: a name that is taken ends its pass.
fn polled(run: RunPosition, count: u64, answer: Reply) -> RunPosition
    requires { GoesOn count (position_of run) }
    ensures { position_of result ≡ move_on poll count (position_of run) (heard answer) }
{
    let Reply::Silence = answer else {
        return next_name(run, count);
    };
    go_on(run, run.place.value, 0)
}

// After the first comparison: "Else compare with 0; silence ends the run".
fn compared_with_0(run: RunPosition, value: u64, answer: Reply) -> RunPosition
    requires { FitCounts (position_of run) × Asks run.place.step run.place.value value × (run.place.step ≡ comparison_rounds) }
    ensures { (count : ℕ) → position_of result ≡ move_on (place_of run.place.step) count (position_of run) (heard answer) }
{
    let Reply::Heard = answer else {
        return all_named(run);
    };
    go_on(run, value, 1)
}

// After the execute of a comparison with a value: a reply keeps the value.
fn compared(run: RunPosition, value: u64, answer: Reply) -> RunPosition
    requires { FitCounts (position_of run) × Asks run.place.step run.place.value value }
    ensures { (count : ℕ) → position_of result ≡ move_on (place_of run.place.step) count (position_of run) (heard answer) }
{
    if run.place.step == FIRST_REPLY {
        return compared_with_0(run, value, answer);
    }
    match answer {
        Reply::Heard => go_on(run, value, 1),
        Reply::Silence => go_on(run, run.place.value, 1),
    }
}

// After a round that writes no half, by the answer. The step is tested, not looked up in a table of functions: of 200 steps four kinds are told
// apart, and what is done at each takes other arguments.
fn moved(at: Standing, count: u64, answer: Reply) -> RunPosition
    requires { GoesOn count (position_of at.run) × (2 ≤ at.writing.part) }
    ensures { position_of result ≡ move_on (place_of at.run.place.step) count (position_of at.run) (heard answer) }
{
    let run = at.run;
    if run.place.step == POLL {
        return polled(run, count, answer);
    }
    if run.place.step < GIVE_NAME {
        return compared(run, at.writing.value, answer);
    }
    if run.place.step == LAST_STEP {
        return next_name(run, count);
    }
    go_on(run, run.place.value, 0)
}

// From its round really made to the next one, by the answer.
pub fn advanced(at: Standing, count: u64, answer: Reply) -> RunPosition
    requires { GoesOn count (position_of at.run) }
    ensures { Advances count (position_of at.run) (heard answer) (position_of result) }
{
    if at.writing.part < REPLY {
        return written(at);
    }
    let next = standing_at(moved(at, count, answer));
    next.run
}
