// The position of a naming run: the fresh one, ground 17, and how its parts change.
ghost use Rattle.std.specs.Prelude.{◌≡◌, ◌≤◌};
ghost use Rattle.naming.specs.Rules.Position.{end_at, fresh};
ghost use Rattle.naming.specs.Rules.Run.{onward, count_raised, next_name, end_all_named};
ghost use Rattle.naming.specs.Rules.RunGrounds.{unfit_position};
ghost use Rattle.naming.specs.Inner.StepAnswers.{position_of, FitCounts, GoesOn};

use crate::pass::{LAST_STEP, POLL};

// The name by its index, the step of its pass, and the value so far.
#[derive(Clone, Copy)]
pub struct RunPlace {
    pub index: u64,
    pub step: u64,
    pub value: u64,
}

// The rounds and comparisons made.
#[derive(Clone, Copy)]
pub struct RunCounts {
    pub rounds: u64,
    pub comparisons: u64,
}

// The halves last written.
#[derive(Clone, Copy)]
pub struct RunHalves {
    pub high: u64,
    pub low: u64,
}

// The caller keeps it between steps, and may hand in any content: the C interface has these words, so that end and step are numbers, of which
// ground 17 (`unfit_position`) tells the unfit ones. That its parts fit (FitCounts, GoesOn) is asked function by function: a round more may
// bring a count to its limit, and a type of positions that fit would be left by each function that takes it.
#[derive(Clone, Copy)]
pub struct RunPosition {
    pub end: u64,
    pub place: RunPlace,
    pub counts: RunCounts,
    pub halves: RunHalves,
}

pub const RUNNING: u64 = 0;

const ALL_NAMED: u64 = 1;

const NAMES_USED_UP: u64 = 2;

// "either count 1,000,000 or more".
const COUNT_LIMIT: u64 = 1000000;

#[tactic(auto, unfolding(crate::specs::Rules::Position::end_at))]
fn end_at(count: u64, index: u64) -> u64
    ensures { result ≡ end_at count index }
{
    if index < count {
        return RUNNING;
    }
    NAMES_USED_UP
}

// A fresh run over a list of so many names.
#[tactic(auto, unfolding(crate::specs::Rules::Position::fresh))]
pub fn first_position(names: &[u8]) -> RunPosition
    ensures { position_of result ≡ fresh names.now }
{
    RunPosition {
        end: end_at(names.len() as u64, 0),
        place: RunPlace {
            index: 0,
            step: POLL,
            value: 0,
        },
        counts: RunCounts {
            rounds: 0,
            comparisons: 0,
        },
        halves: RunHalves { high: 0, low: 0 },
    }
}

// Ground 17.
pub fn is_unfit(names: &[u8], run: RunPosition) -> bool
    ensures { result ≡ unfit_position names.now (position_of run) }
{
    let count = names.len() as u64;
    if NAMES_USED_UP < run.end {
        return true;
    }
    if count < run.place.index {
        return true;
    }
    if run.end != RUNNING {
        return false;
    }
    if run.place.index == count {
        return true;
    }
    if LAST_STEP < run.place.step {
        return true;
    }
    if COUNT_LIMIT <= run.counts.rounds {
        return true;
    }
    COUNT_LIMIT <= run.counts.comparisons
}

// To the pass's next round, with a value and so many more comparisons made.
#[tactic(auto, unfolding(crate::specs::Rules::Run::onward))]
pub fn go_on(run: RunPosition, value: u64, more: u64) -> RunPosition
    requires { FitCounts (position_of run) × (more ≤ 1) }
    ensures { position_of result ≡ onward (position_of run) value more }
{
    RunPosition {
        place: RunPlace {
            step: run.place.step + 1,
            value,
            ..run.place
        },
        counts: RunCounts {
            rounds: run.counts.rounds + 1,
            comparisons: run.counts.comparisons + more,
        },
        ..run
    }
}

// The extra read is made.
#[tactic(auto, unfolding(crate::specs::Rules::Run::count_raised))]
pub fn count_raised(run: RunPosition) -> RunPosition
    requires { FitCounts (position_of run) }
    ensures { position_of result ≡ count_raised (position_of run) }
{
    RunPosition {
        counts: RunCounts {
            rounds: run.counts.rounds + 1,
            ..run.counts
        },
        ..run
    }
}

// The name is done.
#[tactic(auto, unfolding(crate::specs::Rules::Run::next_name))]
pub fn next_name(run: RunPosition, count: u64) -> RunPosition
    requires { GoesOn count (position_of run) }
    ensures { position_of result ≡ next_name count (position_of run) }
{
    let index = run.place.index + 1;
    RunPosition {
        end: end_at(count, index),
        place: RunPlace {
            index,
            step: POLL,
            ..run.place
        },
        counts: RunCounts {
            rounds: run.counts.rounds + 1,
            ..run.counts
        },
        ..run
    }
}

#[tactic(auto, unfolding(crate::specs::Rules::Run::end_all_named))]
pub fn all_named(run: RunPosition) -> RunPosition
    requires { FitCounts (position_of run) }
    ensures { position_of result ≡ end_all_named (position_of run) }
{
    RunPosition {
        end: ALL_NAMED,
        counts: RunCounts {
            rounds: run.counts.rounds + 1,
            comparisons: run.counts.comparisons + 1,
        },
        ..run
    }
}
