// The answer to a frame.
ghost use Rattle.std.specs.Prelude.{◌≡◌};
ghost use Rattle.cluster.specs.Inner.Unheard.{is_done};
ghost use Rattle.file.specs.Inner.Refusals.{outcome_of};

use file::types::Refusal;

// Whether a frame was carried out.
pub fn is_carried(answer: Result<u64, Refusal>) -> bool
    ensures { result ≡ is_done (outcome_of answer) }
{
    answer.is_ok()
}

// What came of a frame that nobody hears: whether it was carried out, and whether someone may be asleep afterwards. Neither is a value that
// the other tells of, as in an Option: of a refused frame both are told (`take_unheard`, LeftUnheard).
#[derive(Clone, Copy)]
pub struct Unheard {
    pub carried: bool,
    pub sleepers: bool,
}
